ghost use Rattle.std.specs.Prelude.{◌≡◌, ◌<◌, ◌++◌, IfOk};
ghost use Rattle.hyper_model.specs.Plans.{atoms, units};
ghost use Rattle.day_replay.specs.Played.{IsSizedFor};
ghost use Rattle.day_replay.specs.Texts as spec;
ghost use Rattle.day_replay.specs.Texts.{busy_row, dispatch_row, model_field, send_row};

use crate::{Played, Send};
use hyper_model::{Enclosed, Enclosures, Found, Measure, Plan, Subject, scale};
use report_text::{push_found, push_label};
use std::alloc::AllocError;
use text_lines::{push_number_field, push_text_field};

/// Puts the row of a unit that was sent to a call after the text.
pub(crate) fn push_send(text: &mut Vec<u8>, plan: &Plan, send: Send) -> Result<(), AllocError>
    requires { send.unit < units plan.now }
    ensures { IfOk result (λ _. text.new.items ≡ text.old.items ++ send_row plan.now send) }
{
    text.extend_from_slice(b"send")?;
    push_number_field(text, u64::from(send.call))?;
    push_text_field(
        text,
        plan.unit(usize::from(send.unit)).name.text().as_bytes(),
    )?;
    text.push(b'\n')?;
    Ok(())
}

/// Puts the row of how often a unit was sent to an atom, and of the model's share, after the text.
pub(crate) fn push_dispatch(
    text: &mut Vec<u8>,
    plan: &Plan,
    played: &Played,
    found: &Enclosures,
    unit: u8,
    atom: u16,
) -> Result<(), AllocError>
    requires sized { IsSizedFor plan.now played.now }
    requires unit { unit < units plan.now }
    requires atom { atom < atoms plan.now }
    ensures { IfOk result (λ _.
        text.new.items ≡ text.old.items ++ dispatch_row plan.now played.now found.now.items unit atom) }
{
    push_label(text, plan, "dispatch", Subject::UnitAndAtom(unit, atom))?;
    let count = played.dispatched(usize::from(unit), usize::from(atom));
    push_number_field(text, u64::from(count))?;
    push_model(text, found, Measure::Dispatch(unit, atom))?;
    text.push(b'\n')?;
    Ok(())
}

/// Puts the row of how long a unit was busy, and of the model's workload, after the text.
pub(crate) fn push_busy(
    text: &mut Vec<u8>,
    plan: &Plan,
    played: &Played,
    found: &Enclosures,
    unit: u8,
) -> Result<(), AllocError>
    requires sized { IsSizedFor plan.now played.now }
    requires unit { unit < units plan.now }
    ensures { IfOk result (λ _.
        text.new.items ≡ text.old.items ++ busy_row plan.now played.now found.now.items unit) }
{
    push_label(text, plan, "busy", Subject::Unit(unit))?;
    push_number_field(text, played.busy(usize::from(unit)))?;
    push_model(text, found, Measure::Workload(unit))?;
    text.push(b'\n')?;
    Ok(())
}

/// Puts a comma and the ends that the model's list has for a measure after the text.
fn push_model(text: &mut Vec<u8>, found: &Enclosures, measure: Measure) -> Result<(), AllocError>
    ensures { IfOk result (λ _. text.new.items ≡ text.old.items ++ model_field found.now.items measure) }
{
    text.push(b',')?;
    push_found(text, found_of(found, measure), scale(measure))
}

/// What the first item of this measure says of it.
fn found_of(found: &Enclosures, measure: Measure) -> Found
    ensures { result ≡ spec.found_of measure found.now.items }
{
    for place in 0..found.len() {
        if let Some(said) = said_of(found.get(place), measure) {
            return said;
        }
    }
    Found::Without
}

/// What an item says of a measure, if it is of this measure.
fn said_of(item: Enclosed, measure: Measure) -> Option<Found>
    ensures { result ≡ spec.said_of measure item }
{
    if item.measure == measure {
        Some(item.found)
    } else {
        None
    }
}
