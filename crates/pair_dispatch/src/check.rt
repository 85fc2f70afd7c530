ghost use Rattle.std.specs.Prelude.{◌≡◌, ◌≤◌, ℕ, true, MatchResult};
ghost use Rattle.hyper_model.specs.declared.kinds.Line.TheVariants as line;
ghost use Rattle.hyper_model.specs.Plans.{units};
ghost use Rattle.pair_dispatch.specs.Acceptance.{IsRefusedFor, MayPair};

use crate::PairRefusal;
use hyper_model::{Line, Plan, law_accepted};

/// The most units of a plan whose calls may need two.
pub const MOST_PAIR_UNITS: usize = 10;

/// Whether calls of a plan may need two units: calls are lost, at most ten units, and no group of several units.
pub fn check_pairs(plan: &Plan) -> Result<(), PairRefusal>
    ensures { MatchResult result (λ _. MayPair plan.now) (IsRefusedFor plan.now) }
{
    if plan.line() == Line::Infinite {
        return Err(PairRefusal::PairLine);
    }
    let units = plan.units();
    if units > MOST_PAIR_UNITS {
        return Err(PairRefusal::PairUnits(units as u64));
    }
    check_groups(plan)
}

// That each group has one unit.
fn check_groups(plan: &Plan) -> Result<(), PairRefusal>
    requires line { plan.now.line ≡ line.Zero }
    requires units { units plan.now ≤ MOST_PAIR_UNITS }
    ensures { MatchResult result (λ _. MayPair plan.now) (IsRefusedFor plan.now) }
{
    law_accepted(plan);
    for atom in 0..plan.atoms() {
        if !plan.lists().is_single(atom) {
            return Err(PairRefusal::PairGroup(atom as u64 + 1));
        }
    }
    Ok(())
}
