ghost use Rattle.std.specs.Prelude.{◌≡◌, ◌≤◌};
ghost use Rattle.hyper_model.specs.Plans.{units};
ghost use Rattle.hyper_model.specs.Words.{words};
ghost use Rattle.pair_dispatch.specs.Acceptance.{MayPair};
ghost use Rattle.pair_dispatch.specs.PairRates.{pair_rates, pair_top};

use crate::sending::rate_between;
use busy_words::Order;
use hyper_model::{Plan, law_accepted};
use rate_matrix::Chain;

/// The words of a plan as the states of a chain, by their ranks in the order, if of a hundred calls of each atom
/// `percent` need two units.
#[derive(Clone, Copy)]
pub struct PairChain<'a> {
    pub(crate) plan: &'a Plan,
    pub(crate) order: &'a Order,
    pub(crate) percent: u32,
    ghost same_units: { order.now.units ≡ units plan.now },
    ghost in_range: { percent ≤ 100 },
}

impl<'a> PairChain<'a> {
    /// The chain of the plan's words in this order.
    pub fn of(plan: &'a Plan, order: &'a Order, percent: u32) -> PairChain<'a>
        requires accepted { MayPair plan.now }
        requires order { order.now.units ≡ units plan.now }
        requires percent { percent ≤ 100 }
        ensures plan { result.plan.now ≡ plan.now }
        ensures order { result.order.now ≡ order.now }
        ensures percent { result.percent ≡ percent }
    {
        PairChain {
            plan,
            order,
            percent,
        }
    }
}

impl Chain for PairChain<'_> {
    ghost states = { λ s. words s.plan.now };

    ghost rates = { λ s. pair_rates s.plan.now s.percent s.order.now };

    ghost most = { λ s. pair_top s.plan.now };

    fn size(&self) -> usize {
        law_accepted(self.plan);
        let _units = self.order.units();
        self.order.len()
    }

    fn rate(&self, from: usize, to: usize) -> u64 {
        let word = self.order.word(from);
        let next = self.order.word(to);
        rate_between(self.plan, self.percent, word, next)
    }

    fn top(&self) -> u64 {
        let _units = self.order.units();
        100 * (u64::from(self.plan.calls()) + u64::from(self.plan.service()))
    }
}
