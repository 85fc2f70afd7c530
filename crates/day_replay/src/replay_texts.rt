ghost use Rattle.std.specs.Prelude.{◌≡◌, ◌<◌, ◌≤◌, ◌++◌, IfOk};
ghost use Rattle.std.specs.List.{flat_map};
ghost use Rattle.std.specs.List.{range_with_len};
ghost use Rattle.hyper_model.specs.Plans.{atoms, units};
ghost use Rattle.plan_solver.specs.Enclosures.{IsEnclosureOf};
ghost use Rattle.day_replay.specs.Played.{IsReplayOf, IsSizedFor};
ghost use Rattle.day_replay.specs.Texts.{busy_row, dispatch_row, dispatch_rows, replay_bytes, send_row, total_rows};

use crate::Played;
use crate::replay_rows::{push_busy, push_dispatch, push_send};
use hyper_model::{Enclosures, Line, Plan};
use std::alloc::{AllocError, Global};
use text_lines::push_count;

/// The text of a replayed day: how many calls there were, which unit was sent to each, and beside how often each unit was
/// sent to each atom, and how long it was busy, what the model says.
#[tactic(auto, unfolding(crate::specs::Texts::replay_bytes))]
pub fn replay_text(
    alloc: Global,
    plan: &Plan,
    played: &Played,
    found: &Enclosures,
) -> Result<Vec<u8>, AllocError>
    requires played { IsReplayOf plan.now played.now }
    requires found { IsEnclosureOf plan.now found.now.items }
    ensures { IfOk result (λ text. text.items ≡ replay_bytes plan.now played.now found.now.items) }
{
    let mut text = Vec::new(alloc);
    push_count(&mut text, b"replay", 1)?;
    push_totals(&mut text, plan, played)?;
    push_sends(&mut text, plan, played)?;
    push_dispatches(&mut text, plan, played, found)?;
    push_busy_rows(&mut text, plan, played, found)?;
    text.extend_from_slice(b"end\n")?;
    Ok(text)
}

/// Puts how many calls there were, were answered, and were not.
fn push_totals(text: &mut Vec<u8>, plan: &Plan, played: &Played) -> Result<(), AllocError>
    ensures { IfOk result (λ _. text.new.items ≡ text.old.items ++ total_rows plan.now played.now) }
{
    push_count(text, b"calls", u64::from(played.calls()))?;
    push_count(text, b"answered", played.len() as u64)?;
    let unanswered = u64::from(played.unanswered());
    match plan.line() {
        Line::Zero => push_count(text, b"lost", unanswered),
        Line::Infinite => push_count(text, b"waiting", unanswered),
    }
}

/// Puts the rows of all sends.
fn push_sends(text: &mut Vec<u8>, plan: &Plan, played: &Played) -> Result<(), AllocError>
    requires { IsSizedFor plan.now played.now }
    ensures { IfOk result (λ _.
        text.new.items ≡ text.old.items ++ flat_map (send_row plan.now) played.now.sends) }
{
    for place in 0..played.len() {
        push_send(text, plan, played.get(place))?;
    }
    Ok(())
}

/// Puts a row for each unit and atom.
fn push_dispatches(
    text: &mut Vec<u8>,
    plan: &Plan,
    played: &Played,
    found: &Enclosures,
) -> Result<(), AllocError>
    requires { IsSizedFor plan.now played.now }
    ensures { IfOk result (λ _. text.new.items ≡ text.old.items
        ++ flat_map (dispatch_rows plan.now played.now found.now.items) (range_with_len 0 (units plan.now))) }
{
    for unit in 0..plan.units() {
        push_dispatches_of(text, plan, played, found, unit as u8)?;
    }
    Ok(())
}

fn push_dispatches_of(
    text: &mut Vec<u8>,
    plan: &Plan,
    played: &Played,
    found: &Enclosures,
    unit: u8,
) -> Result<(), AllocError>
    requires sized { IsSizedFor plan.now played.now }
    requires unit { unit < units plan.now }
    ensures { IfOk result (λ _.
        text.new.items ≡ text.old.items ++ dispatch_rows plan.now played.now found.now.items unit) }
{
    for atom in 0..plan.atoms() {
        push_dispatch(text, plan, played, found, unit, atom as u16)?;
    }
    Ok(())
}

/// Puts a row for each unit.
fn push_busy_rows(
    text: &mut Vec<u8>,
    plan: &Plan,
    played: &Played,
    found: &Enclosures,
) -> Result<(), AllocError>
    requires { IsSizedFor plan.now played.now }
    ensures { IfOk result (λ _. text.new.items ≡ text.old.items
        ++ flat_map (busy_row plan.now played.now found.now.items) (range_with_len 0 (units plan.now))) }
{
    for unit in 0..plan.units() {
        push_busy(text, plan, played, found, unit as u8)?;
    }
    Ok(())
}
