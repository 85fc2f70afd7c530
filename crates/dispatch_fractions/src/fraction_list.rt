ghost use Rattle.std.specs.Prelude.{◌≡◌, ◌++◌, ◌<◌, All, IfOk};
ghost use Rattle.hyper_model.specs.Plans.{units, atoms};
ghost use Rattle.hyper_model.specs.Enclosures.{IsOrderedEnclosed};
ghost use Rattle.dispatch_fractions.specs.PartLists.{AreSizedFor};
ghost use Rattle.dispatch_fractions.specs.Fractions.{fraction_of, fractions_of, unit_fractions};

use crate::Parts;
use crate::flows::{dispatch_flow, found_of};
use fixed_interval::Wide;
use hyper_model::{Enclosed, Measure, Plan, push_each};
use std::alloc::{AllocError, Global};

/// The share of all answered calls that each unit answers at each atom, in millionths: unit by unit, and per unit
/// all atoms in order (Larson 1974).
///
/// In the infinite line a call that waits goes to a unit by the unit's part of all service.
pub fn fractions(alloc: Global, plan: &Plan, parts: &Parts) -> Result<Vec<Enclosed>, AllocError>
    requires { AreSizedFor plan.now parts.now }
    ensures exact { IfOk result (λ found. found.items ≡ fractions_of plan.now parts.now) }
    ensures ordered { IfOk result (λ found. All IsOrderedEnclosed found.items) }
{
    let mut found = Vec::new(alloc);
    for unit in 0..plan.units() {
        push_unit(&mut found, plan, parts, unit)?;
    }
    Ok(found)
}

// Puts the fractions of one unit after the others.
fn push_unit(
    found: &mut Vec<Enclosed>,
    plan: &Plan,
    parts: &Parts,
    unit: usize,
) -> Result<(), AllocError>
    requires sized { AreSizedFor plan.now parts.now }
    requires unit { unit < units plan.now }
    requires ordered { All IsOrderedEnclosed found.old.items }
    ensures exact { IfOk result (λ _. found.new.items ≡ found.old.items ++ unit_fractions plan.now parts.now unit) }
    ensures ordered { IfOk result (λ _. All IsOrderedEnclosed found.new.items) }
{
    push_each(found, plan.atoms(), |atom| {
        fraction(plan, parts, unit, atom)
    })
}

fn fraction(plan: &Plan, parts: &Parts, unit: usize, atom: usize) -> Enclosed
    requires sized { AreSizedFor plan.now parts.now }
    requires unit { unit < units plan.now }
    requires atom { atom < atoms plan.now }
    ensures exact { result ≡ fraction_of plan.now parts.now unit atom }
    ensures ordered { IsOrderedEnclosed result }
{
    let all = u128::from(plan.calls()) * (1 << 62);
    let share = dispatch_flow(plan, parts, unit, atom)
        .scaled(1_000_000)
        .over(Wide::new(all, all), 1_000_000);
    Enclosed {
        measure: Measure::Dispatch(unit as u8, atom as u16),
        found: found_of(share),
    }
}
