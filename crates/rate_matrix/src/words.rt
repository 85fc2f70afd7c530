ghost use Rattle.std.specs.Prelude.{◌≡◌, ◌≢◌, ℕ, ◌<◌, ◌↔◌, List, length};
ghost use Rattle.hyper_model.specs.Plans.{units};
ghost use Rattle.hyper_model.specs.Words.{words};
ghost use Rattle.hyper_model.specs.Solutions.{SolvesWords};
ghost use Rattle.hyper_model.specs.Tables.{IsTableSolution, turn_rate, word_table};
ghost use Rattle.rate_matrix.specs.WordChains.{by_rank, word_rates, word_top};

use crate::chain::Chain;
use busy_words::{Order, is_busy, up};
use hyper_model::{Plan, law_accepted};

/// The words of a plan as the states of a chain, by their ranks in the order.
#[derive(Clone, Copy)]
pub struct WordChain<'a> {
    pub(crate) plan: &'a Plan,
    pub(crate) order: &'a Order,
    ghost same_units: { order.now.units ≡ units plan.now },
}

impl<'a> WordChain<'a> {
    /// The chain of the plan's words in this order.
    ///
    /// Masses of the words, listed by rank, solve the balance of this chain exactly if they solve that of
    /// the plan.
    pub fn of(plan: &'a Plan, order: &'a Order) -> WordChain<'a>
        requires { order.now.units ≡ units plan.now }
        ensures plan { result.plan.now ≡ plan.now }
        ensures order { result.order.now ≡ order.now }
        ensures balance { (xs : List ℕ) → length xs ≡ words plan.now → SolvesWords plan.now xs
            ↔ IsTableSolution (words plan.now) (word_rates plan.now order.now) (by_rank order.now xs) }
    {
        law_accepted(plan);
        let _units = order.units();
        WordChain { plan, order }
    }
}

impl Chain for WordChain<'_> {
    ghost states = { λ s. words s.plan.now };

    ghost rates = { λ s. word_rates s.plan.now s.order.now };

    ghost most = { λ s. word_top s.plan.now };

    fn size(&self) -> usize {
        law_accepted(self.plan);
        let _units = self.order.units();
        self.order.len()
    }

    fn rate(&self, from: usize, to: usize) -> u64 {
        rate_between_words(self.plan, self.order.word(from), self.order.word(to))
    }

    fn top(&self) -> u64 {
        let _units = self.order.units();
        u64::from(self.plan.split())
            * (u64::from(self.plan.calls()) + u64::from(self.plan.service()))
    }
}

// The rate from a word to another, in which only one unit has changed or there is none.
fn rate_between_words(plan: &Plan, word: u16, next: u16) -> u64
    requires word { word < words plan.now }
    requires next { next < words plan.now }
    ensures { result ≡ word_table plan.now word next }
{
    for unit in 0..plan.units() as u8 {
        if word ^ (1 << unit) == next {
            return rate_of_turn(plan, word, unit);
        }
    }
    0
}

// The rate at which the unit changes: it ends its service, or is sent to a call.
fn rate_of_turn(plan: &Plan, word: u16, unit: u8) -> u64
    requires word { word < words plan.now }
    requires unit { unit < units plan.now }
    ensures { result ≡ turn_rate plan.now word unit }
{
    let _units = plan.units();
    if is_busy(word, unit) {
        u64::from(plan.split()) * u64::from(plan.unit(usize::from(unit)).rate)
    } else {
        up(plan, word, unit)
    }
}
