ghost use Rattle.std.specs.Prelude.{◌≡◌, ◌++◌, All, IfOk};
ghost use Rattle.std.specs.List.{flat_map};
ghost use Rattle.hyper_model.specs.Plans.{units};
ghost use Rattle.finite_line.specs.FiniteMeasures.{IsFiniteInRange};
ghost use Rattle.finite_line.specs.Rows.{finite_bytes, finite_label, finite_row};

use crate::{FiniteEnds, FiniteFound, FiniteMeasure};
use hyper_model::Plan;
use std::alloc::{AllocError, Global};
use text_lines::{push_count, push_ends, push_text_field};

/// The text of what was found of a plan with so many waiting places: a row for each measure, in the order of the list.
pub fn finite_text(
    alloc: Global,
    plan: &Plan,
    places: u32,
    found: &FiniteFound,
) -> Result<Vec<u8>, AllocError>
    requires { All (λ e. IsFiniteInRange (units plan.now) e.measure) found.now }
    ensures { IfOk result (λ text. text.items ≡ finite_bytes plan.now places found.now) }
{
    let mut text = Vec::new(alloc);
    push_count(&mut text, b"finite", 1)?;
    push_count(&mut text, b"places", u64::from(places))?;
    push_rows(&mut text, plan, found)?;
    text.extend_from_slice(b"end\n")?;
    Ok(text)
}

fn push_rows(text: &mut Vec<u8>, plan: &Plan, found: &FiniteFound) -> Result<(), AllocError>
    requires { All (λ e. IsFiniteInRange (units plan.now) e.measure) found.now }
    ensures { IfOk result (λ _. text.new.items ≡ text.old.items ++ flat_map (finite_row plan.now) found.now) }
{
    for place in 0..found.len() {
        push_row(text, plan, *found.get(place))?;
    }
    Ok(())
}

fn push_row(text: &mut Vec<u8>, plan: &Plan, item: FiniteEnds) -> Result<(), AllocError>
    requires { IsFiniteInRange (units plan.now) item.measure }
    ensures { IfOk result (λ _. text.new.items ≡ text.old.items ++ finite_row plan.now item) }
{
    push_label(text, plan, item.measure)?;
    text.push(b',')?;
    push_ends(text, item.lo, item.hi, item.measure.scale())?;
    text.push(b'\n')?;
    Ok(())
}

fn push_label(text: &mut Vec<u8>, plan: &Plan, measure: FiniteMeasure) -> Result<(), AllocError>
    requires { IsFiniteInRange (units plan.now) measure }
    ensures { IfOk result (λ _. text.new.items ≡ text.old.items ++ finite_label plan.now measure) }
{
    match measure {
        FiniteMeasure::Lost => text.extend_from_slice(b"lost"),
        FiniteMeasure::Delayed => text.extend_from_slice(b"delayed"),
        FiniteMeasure::Busy => text.extend_from_slice(b"busy"),
        FiniteMeasure::Queue => text.extend_from_slice(b"queue"),
        FiniteMeasure::Wait => text.extend_from_slice(b"wait"),
        FiniteMeasure::Workload(unit) => {
            text.extend_from_slice(b"workload")?;
            push_text_field(text, plan.unit(usize::from(unit)).name.text().as_bytes())
        }
    }
}
