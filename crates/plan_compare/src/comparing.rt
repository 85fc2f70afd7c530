ghost use Rattle.std.specs.Prelude.{◌≡◌, ◌+◌, ◌≤◌, ◌++◌, None, length, map, IfErr, IfOk, OnOk};
ghost use Rattle.std.specs.List.{flat_map};
ghost use Rattle.plan_compare.specs.Comparisons.{EndsBy, comparison_bytes, first_wide_of, measure_rows, value_places, value_rows, verdict_rows};
ghost use Rattle.plan_compare.specs.declared.study.TheConstants.{MOST_PLANS};
ghost use Rattle.plan_compare.specs.Verdicts.{pairs_from, pairs_of, verdict_of, verdicts_of};

use crate::rows::{push_value, push_verdict};
use crate::values::value_at;
use crate::verdict_list::pair_count;
use crate::widths::check_widths;
use crate::{CompareEnd, Study, Verdict, VerdictList};
use hyper_model::{Enclosures, Measure};
use report_text::Widths;
use std::alloc::{AllocError, Global};
use text_lines::push_count;

/// The comparison of a study's plans: for each measure its ends in each plan, and then the verdicts.
///
/// There is none if the ends of a measure in a plan lie further apart than was asked: the first such value is
/// reported, plan by plan.
pub fn comparison(
    alloc: Global,
    study: &Study,
    found: &[Enclosures],
    list: &VerdictList,
    widths: Widths,
) -> Result<Vec<u8>, CompareEnd>
    requires one_each { length found.now ≡ length study.now.plans }
    requires verdicts { list.now.items ≡ verdicts_of study.now found.now }
    ensures narrow { OnOk result (first_wide_of widths found.now (value_places study.now) ≡ None) }
    ensures text { IfOk result (λ text. text.items ≡ comparison_bytes study.now found.now) }
    ensures end { IfErr result (EndsBy (first_wide_of widths found.now (value_places study.now))) }
{
    check_widths(study, found, widths)?;
    match comparison_text(alloc, study, found, list.as_slice()) {
        Ok(text) => Ok(text),
        Err(_) => Err(CompareEnd::NoMemory),
    }
}

fn comparison_text(
    alloc: Global,
    study: &Study,
    found: &[Enclosures],
    verdicts: &[Verdict],
) -> Result<Vec<u8>, AllocError>
    requires one_each { length found.now ≡ length study.now.plans }
    requires verdicts { verdicts.now ≡ verdicts_of study.now found.now }
    ensures { IfOk result (λ text. text.items ≡ comparison_bytes study.now found.now) }
{
    let mut text = Vec::new(alloc);
    text.extend_from_slice(b"study,1\n")?;
    push_count(&mut text, b"plans", study.plans() as u64)?;
    push_measures(&mut text, study, found, verdicts)?;
    text.extend_from_slice(b"end\n")?;
    Ok(text)
}

fn push_measures(
    text: &mut Vec<u8>,
    study: &Study,
    found: &[Enclosures],
    verdicts: &[Verdict],
) -> Result<(), AllocError>
    requires one_each { length found.now ≡ length study.now.plans }
    requires verdicts { verdicts.now ≡ verdicts_of study.now found.now }
    ensures { IfOk result (λ _.
        text.new.items ≡ text.old.items ++ flat_map (measure_rows found.now) study.now.measures) }
{
    let count = pair_count(study.plans());
    let mut rest = verdicts;
    for k in 0..study.measures() {
        let measure = study.measure(k);
        let (here, later) = rest.split_at(count);
        push_measure(text, measure, found, here)?;
        rest = later;
    }
    Ok(())
}

fn push_measure(
    text: &mut Vec<u8>,
    measure: Measure,
    found: &[Enclosures],
    verdicts: &[Verdict],
) -> Result<(), AllocError>
    requires few { length found.now ≤ MOST_PLANS }
    requires verdicts { verdicts.now ≡ map (verdict_of found.now) (pairs_of (length found.now) measure) }
    ensures { IfOk result (λ _. text.new.items ≡ text.old.items ++ measure_rows found.now measure) }
{
    push_values(text, measure, found)?;
    push_verdicts(text, measure, found.len(), verdicts)
}

fn push_values(text: &mut Vec<u8>, measure: Measure, found: &[Enclosures]) -> Result<(), AllocError>
    requires { length found.now ≤ MOST_PLANS }
    ensures { IfOk result (λ _. text.new.items ≡ text.old.items ++ value_rows found.now measure) }
{
    for place in 0..found.len() {
        push_value(text, measure, place, value_at(found, measure, place))?;
    }
    Ok(())
}

fn push_verdicts(
    text: &mut Vec<u8>,
    measure: Measure,
    plans: usize,
    verdicts: &[Verdict],
) -> Result<(), AllocError>
    requires few { plans ≤ MOST_PLANS }
    requires one_each { length verdicts.now ≡ length (pairs_of plans measure) }
    ensures { IfOk result (λ _.
        text.new.items ≡ text.old.items ++ verdict_rows (pairs_of plans measure) verdicts.now) }
{
    let mut rest = verdicts;
    for a in 0..plans {
        let (here, later) = rest.split_at(plans - 1 - a);
        push_verdicts_from(text, measure, a, here)?;
        rest = later;
    }
    Ok(())
}

/// Puts the rows of the verdicts on the plan at place `a` and each after it.
fn push_verdicts_from(
    text: &mut Vec<u8>,
    measure: Measure,
    a: usize,
    verdicts: &[Verdict],
) -> Result<(), AllocError>
    requires few { a + 1 + length verdicts.now ≤ MOST_PLANS }
    ensures { IfOk result (λ _. text.new.items
        ≡ text.old.items ++ verdict_rows (pairs_from (a + 1 + length verdicts.now) measure a) verdicts.now) }
{
    for k in 0..verdicts.len() {
        push_verdict(text, measure, a, a + 1 + k, verdicts[k])?;
    }
    Ok(())
}
