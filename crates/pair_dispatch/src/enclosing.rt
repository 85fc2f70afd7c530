ghost use Rattle.std.specs.Prelude.{◌≡◌, ◌≤◌, IfOk, List};
ghost use Rattle.pair_dispatch.specs.declared.measure.PairEnds.{PairEnds};
ghost use Rattle.pair_dispatch.specs.Acceptance.{MayPair};
ghost use Rattle.pair_dispatch.specs.PairEnds.{ArePairWeights, IsPairEnclosureOf};
ghost use Rattle.pair_dispatch.specs.PairMeasures.{ContainsSolutions};
ghost use Rattle.pair_dispatch.specs.PairRates.{HasPairSolution};

use crate::laws::law_pair_solutions;
use crate::measuring::measures;
use crate::weighing::weigh_chain;
use crate::{PairChain, PairFound};
use busy_words::Order;
use fixed_interval::Weights;
use hyper_model::{Plan, law_accepted};
use std::alloc::{AllocError, Global};

/// The measures of a plan if of a hundred calls of each atom `percent` need two units, in the order in which they are
/// printed, each with ends that contain its value.
///
/// The value is that of any solution of the balance of its words, and there is one. There is only one such list. There
/// is an error only for lack of memory.
pub fn enclose_pairs(alloc: Global, plan: &Plan, percent: u32) -> Result<PairFound, AllocError>
    requires accepted { MayPair plan.now }
    requires percent { percent ≤ 100 }
    ensures solvable { HasPairSolution plan.now percent }
    ensures exact { IfOk result (λ found. IsPairEnclosureOf plan.now percent found.items) }
    ensures alone { IfOk result (λ found. (others : List PairEnds)
        → IsPairEnclosureOf plan.now percent others → others ≡ found.items) }
    ensures contains { IfOk result (λ found. ContainsSolutions plan.now percent found.items) }
{
    law_pair_solutions(plan, percent);
    let order = Order::of(alloc, plan.units() as u8)?;
    let weights = weigh_chain(alloc, &PairChain::of(plan, &order, percent))?;
    enclosures(alloc, plan, percent, &order, &weights)
}

/// The measures with the ends that the weights give.
fn enclosures(
    alloc: Global,
    plan: &Plan,
    percent: u32,
    order: &Order,
    weights: &Weights,
) -> Result<PairFound, AllocError>
    requires weights { ArePairWeights plan.now percent order.now weights.now.items }
    requires percent { percent ≤ 100 }
    ensures exact { IfOk result (λ found. IsPairEnclosureOf plan.now percent found.items) }
    ensures alone { IfOk result (λ found. (others : List PairEnds)
        → IsPairEnclosureOf plan.now percent others → others ≡ found.items) }
    ensures contains { IfOk result (λ found. ContainsSolutions plan.now percent found.items) }
{
    law_accepted(plan);
    measures(alloc, plan, order, weights)
}
