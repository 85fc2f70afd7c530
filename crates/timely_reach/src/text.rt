ghost use Rattle.std.specs.Prelude.{◌≡◌, ◌<◌, ◌++◌, All, IfOk};
ghost use Rattle.std.specs.List.{flat_map};
ghost use Rattle.text_lines.specs.Fields.{number_field, text_field};
ghost use Rattle.hyper_model.specs.Plans.{unit_name, units};
ghost use Rattle.timely_reach.specs.Reach.{IsReachInRange, IsReachRow};
ghost use Rattle.timely_reach.specs.Rows.{limits_row, reach_bytes, reach_label, reach_row, share_field, share_fields};

use crate::{ReachMeasure, ReachRow, ReachRows};
use hyper_model::{Bounded, Limits, MOST_LIMITS, Plan, Value};
use std::alloc::{AllocError, Global};
use text_lines::{push_count, push_ends, push_number_field, push_text_field};

/// The text of what was found of a plan for these limits: a row for each share, in the order of the list, with two ends for
/// each limit in order, or `none`.
pub fn reach_text(
    alloc: Global,
    plan: &Plan,
    limits: &Limits,
    rows: &ReachRows,
) -> Result<Vec<u8>, AllocError>
    requires { All (IsReachRow plan.now) rows.now }
    ensures { IfOk result (λ text. text.items ≡ reach_bytes plan.now limits.now rows.now) }
{
    let mut text = Vec::new(alloc);
    push_count(&mut text, b"reach", 1)?;
    push_limits(&mut text, limits)?;
    push_rows(&mut text, plan, rows)?;
    text.extend_from_slice(b"end\n")?;
    Ok(text)
}

fn push_limits(text: &mut Vec<u8>, limits: &Limits) -> Result<(), AllocError>
    ensures { IfOk result (λ _. text.new.items ≡ text.old.items ++ limits_row limits.now) }
{
    text.extend_from_slice(b"seconds")?;
    push_numbers(text, limits)?;
    text.push(b'\n')?;
    Ok(())
}

fn push_numbers(text: &mut Vec<u8>, limits: &Limits) -> Result<(), AllocError>
    ensures { IfOk result (λ _. text.new.items ≡ text.old.items ++ flat_map number_field limits.now) }
{
    for place in 0..limits.len() {
        push_number_field(text, u64::from(*limits.get(place)))?;
    }
    Ok(())
}

fn push_rows(text: &mut Vec<u8>, plan: &Plan, rows: &ReachRows) -> Result<(), AllocError>
    requires { All (IsReachRow plan.now) rows.now }
    ensures { IfOk result (λ _. text.new.items ≡ text.old.items ++ flat_map (reach_row plan.now) rows.now) }
{
    for place in 0..rows.len() {
        push_row(text, plan, rows.get(place))?;
    }
    Ok(())
}

fn push_row(text: &mut Vec<u8>, plan: &Plan, row: &ReachRow) -> Result<(), AllocError>
    requires { IsReachInRange plan.now row.now.measure }
    ensures { IfOk result (λ _. text.new.items ≡ text.old.items ++ reach_row plan.now row.now) }
{
    push_label(text, plan, row.measure)?;
    push_shares(text, &row.ends)?;
    text.push(b'\n')?;
    Ok(())
}

fn push_shares(text: &mut Vec<u8>, ends: &Bounded<Value, MOST_LIMITS>) -> Result<(), AllocError>
    ensures { IfOk result (λ _. text.new.items ≡ text.old.items ++ share_fields ends.now) }
{
    if ends.is_empty() {
        text.extend_from_slice(b",none")
    } else {
        push_each(text, ends)
    }
}

fn push_each(text: &mut Vec<u8>, ends: &Bounded<Value, MOST_LIMITS>) -> Result<(), AllocError>
    ensures { IfOk result (λ _. text.new.items ≡ text.old.items ++ flat_map share_field ends.now) }
{
    for place in 0..ends.len() {
        push_share(text, *ends.get(place))?;
    }
    Ok(())
}

fn push_share(text: &mut Vec<u8>, ends: Value) -> Result<(), AllocError>
    ensures { IfOk result (λ _. text.new.items ≡ text.old.items ++ share_field ends) }
{
    text.push(b',')?;
    push_ends(text, ends.lo, ends.hi, 1_000_000)
}

fn push_label(text: &mut Vec<u8>, plan: &Plan, measure: ReachMeasure) -> Result<(), AllocError>
    requires { IsReachInRange plan.now measure }
    ensures { IfOk result (λ _. text.new.items ≡ text.old.items ++ reach_label plan.now measure) }
{
    match measure {
        ReachMeasure::Region => text.extend_from_slice(b"region"),
        ReachMeasure::All => text.extend_from_slice(b"all"),
        ReachMeasure::AtOnce => text.extend_from_slice(b"at-once"),
        ReachMeasure::Atom(atom) => {
            text.extend_from_slice(b"atom")?;
            push_text_field(text, plan.atom(usize::from(atom)).name.text().as_bytes())
        }
        ReachMeasure::Unit(unit) => push_unit(text, b"unit", plan, usize::from(unit)),
        ReachMeasure::District(unit) => push_unit(text, b"district", plan, usize::from(unit)),
    }
}

fn push_unit(text: &mut Vec<u8>, word: &[u8], plan: &Plan, unit: usize) -> Result<(), AllocError>
    requires { unit < units plan.now }
    ensures { IfOk result (λ _. text.new.items ≡ text.old.items ++ word.now ++ text_field (unit_name plan.now unit)) }
{
    text.extend_from_slice(word)?;
    push_text_field(text, plan.unit(unit).name.text().as_bytes())
}
