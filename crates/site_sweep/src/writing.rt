ghost use Rattle.std.specs.Prelude.{◌≡◌, ◌<◌, ◌++◌, All, IfOk};
ghost use Rattle.std.specs.List.{flat_map};
ghost use Rattle.hyper_model.specs.Plans.{atoms, units};
ghost use Rattle.site_sweep.specs.Sites.{AreSitesOf};
ghost use Rattle.site_sweep.specs.Texts.{kept_row, measure_row, site_row, sweep_bytes, unit_row};

use crate::{Site, Sites};
use hyper_model::{Measure, Plan, Subject, scale};
use report_text::push_label;
use std::alloc::{AllocError, Global};
use text_lines::{push_count, push_ends, push_text_field};

/// The text of a sweep: the unit, the measure, a row for each site that is kept, and how many were dropped.
pub fn sweep_text(
    alloc: Global,
    plan: &Plan,
    unit: u8,
    measure: Measure,
    sites: &Sites,
) -> Result<Vec<u8>, AllocError>
    requires unit { unit < units plan.now }
    requires sites { AreSitesOf plan.now unit measure sites.now }
    ensures { IfOk result (λ text. text.items ≡ sweep_bytes plan.now unit measure sites.now) }
{
    let mut text = Vec::from_slice(alloc, b"sweep,1\n")?;
    push_head(&mut text, plan, unit, measure)?;
    push_kept(&mut text, plan, measure, sites)?;
    push_count(&mut text, b"dropped", sites.dropped() as u64)?;
    text.extend_from_slice(b"end\n")?;
    Ok(text)
}

/// Puts the rows that say which unit is placed, and by which measure the sites are compared.
fn push_head(text: &mut Vec<u8>, plan: &Plan, unit: u8, measure: Measure) -> Result<(), AllocError>
    requires { unit < units plan.now }
    ensures { IfOk result (λ _. text.new.items ≡ text.old.items ++ unit_row plan.now unit ++ measure_row measure) }
{
    push_label(text, plan, "unit", Subject::Unit(unit))?;
    text.extend_from_slice(b"\nmeasure")?;
    push_text_field(text, measure.word().as_bytes())?;
    text.push(b'\n')?;
    Ok(())
}

/// Puts a row for each site that is kept.
fn push_kept(
    text: &mut Vec<u8>,
    plan: &Plan,
    measure: Measure,
    sites: &Sites,
) -> Result<(), AllocError>
    requires { All (λ site. site.atom < atoms plan.now) sites.now }
    ensures { IfOk result (λ _. text.new.items ≡ text.old.items ++ flat_map (kept_row plan.now measure) sites.now) }
{
    for k in 0..sites.len() {
        push_if_kept(text, plan, measure, sites.get(k))?;
    }
    Ok(())
}

fn push_if_kept(
    text: &mut Vec<u8>,
    plan: &Plan,
    measure: Measure,
    site: Site,
) -> Result<(), AllocError>
    requires { site.atom < atoms plan.now }
    ensures { IfOk result (λ _. text.new.items ≡ text.old.items ++ kept_row plan.now measure site) }
{
    if site.kept {
        push_site(text, plan, measure, site)?;
    }
    Ok(())
}

/// Puts the row of a site: its atom, and the ends of the measure with the unit there.
fn push_site(
    text: &mut Vec<u8>,
    plan: &Plan,
    measure: Measure,
    site: Site,
) -> Result<(), AllocError>
    requires { site.atom < atoms plan.now }
    ensures { IfOk result (λ _. text.new.items ≡ text.old.items ++ site_row plan.now measure site) }
{
    push_label(text, plan, "site", Subject::Atom(site.atom))?;
    text.push(b',')?;
    push_ends(text, site.lo, site.hi, scale(measure))?;
    text.push(b'\n')?;
    Ok(())
}
