ghost use Rattle.std.specs.Prelude.{◌≡◌, ◌+◌, ◌*◌, ◌^◌, ◌≤◌, IfOk, length};
ghost use Rattle.hyper_model.specs.Plans.{units};
ghost use Rattle.hyper_model.specs.Tables.{turn_rate, word_table};
ghost use Rattle.hyper_model.specs.Words.{words};
ghost use Rattle.word_flows.specs.TurnRates.{HasLeavings, HasRates};

use crate::levels::balance_levels;
use crate::rates::{fill_leavings, fill_rates, neighbour, rate_of, words_of};
use hyper_model::{Plan, law_accepted};
use state_certificate::Flows;
use std::alloc::{AllocError, Global};

/// The words of a plan by their numbers, with all rates between them.
#[derive(Drop)]
pub struct WordFlows<'a> {
    pub(crate) plan: &'a Plan,
    pub(crate) rates: Vec<u64>,
    pub(crate) leavings: Vec<u64>,
    ghost turns: { HasRates plan.now (turn_rate plan.now) rates.items },
    ghost leaves: { HasLeavings plan.now leavings.items },
}

impl<'a> WordFlows<'a> {
    /// The words of this plan. All memory is taken here: 8 bytes for each unit and each word, and 8 more for each word.
    pub fn of(alloc: Global, plan: &'a Plan) -> Result<WordFlows<'a>, AllocError>
        ensures { IfOk result (λ flows. flows.plan.now ≡ plan.now) }
    {
        let words = usize::from(words_of(plan));
        let mut rates = vec![in alloc; 0; plan.units() * words]?;
        let mut leavings = vec![in alloc; 0; words]?;
        fill_rates(plan, &mut rates);
        fill_leavings(plan, &rates, &mut leavings);
        Ok(WordFlows {
            plan,
            rates,
            leavings,
        })
    }
}

impl Flows for WordFlows<'_> {
    ghost states = { λ s. words s.plan.now };

    ghost rates = { λ s. word_table s.plan.now };

    fn size(&self) -> usize {
        usize::from(words_of(self.plan))
    }

    fn inflow(&self, masses: &[u64], state: usize) -> u128 {
        let mut flow = 0;
        for unit in 0..self.plan.units() {
            let from = neighbour(self.plan, state, unit);
            let rate = rate_of(self.plan, &self.rates, from, unit);
            flow += u128::from(masses[from]) * u128::from(rate);
        }
        flow
    }

    fn leaving(&self, state: usize) -> u64 {
        law_accepted(self.plan);
        self.leavings[state]
    }

    fn improve(&self, masses: &mut [u64]) {
        law_accepted(self.plan);
        balance_levels(self.plan, &self.leavings, masses);
    }
}
