ghost use Rattle.std.specs.Prelude.{◌≡◌, ◌≢◌, ◌≤◌, ◌↔◌, IsTrue, IfOk, Err};
ghost use Rattle.plan_maker.specs.Plans.{IsMakeable, plan_bytes};
ghost use Rattle.plan_maker.specs.declared.making.TheConstants.{LEAST_MADE_UNITS, MOST_MADE_UNITS};

use crate::MakeRefusal;
use crate::atoms::draw_atoms;
use crate::records::{push_all_locations, push_all_travel, push_atoms, push_head, push_units};
use std::alloc::{AllocError, Global};

/// The fewest units that a made plan has.
pub const LEAST_MADE_UNITS: u64 = 2;

/// The most units that a made plan has.
pub const MOST_MADE_UNITS: u64 = 10;

/// The highest number from which a plan is made.
pub const MOST_PLAN_NUMBER: u64 = 4_294_967_295;

/// The text of a plan of so many units, from 2 to 10, made from a number of at most 4,294,967,295.
///
/// The same units and number give the same text. It is a plan for the line that turns calls away,
/// with a rule in place of preference lists.
pub fn make(alloc: Global, units: u64, number: u64) -> Result<Vec<u8>, MakeRefusal>
    ensures text { IfOk result (λ text. text.items ≡ plan_bytes units number) }
    ensures refused { (result ≡ Err MakeRefusal.MakeRange) ↔ (¬ IsMakeable units number) }
    ensures makeable { result ≢ Err MakeRefusal.MakeRange → IsMakeable units number }
{
    if !is_makeable(units, number) {
        return Err(MakeRefusal::MakeRange);
    }
    match plan_text(alloc, units, number as u32) {
        Ok(text) => Ok(text),
        Err(_) => Err(MakeRefusal::NoMemory),
    }
}

fn is_makeable(units: u64, number: u64) -> bool
    ensures { IsTrue result ↔ IsMakeable units number }
{
    (LEAST_MADE_UNITS..=MOST_MADE_UNITS).contains(&units) && number <= MOST_PLAN_NUMBER
}

#[tactic(auto, unfolding(crate::specs::Plans::plan_bytes))]
fn plan_text(alloc: Global, units: u64, number: u32) -> Result<Vec<u8>, AllocError>
    requires least { LEAST_MADE_UNITS ≤ units }
    requires most { units ≤ MOST_MADE_UNITS }
    ensures { IfOk result (λ text. text.items ≡ plan_bytes units number) }
{
    let atoms = draw_atoms(alloc, number, 4 * units as u32)?;
    let mut text = Vec::new(alloc);
    push_head(&mut text)?;
    push_units(&mut text, units)?;
    push_atoms(&mut text, units, &atoms)?;
    push_all_travel(&mut text, &atoms)?;
    push_all_locations(&mut text, units)?;
    Ok(text)
}
