ghost use Rattle.std.specs.Prelude.{◌≡◌, ◌≢◌, ℕ, ◌^◌, ◌<◌, ◌≤◌};
ghost use Rattle.hyper_model.specs.Tables.{AreProportional, Descends, HasTableSolution, IsFirstPositive};
ghost use Rattle.rate_matrix.specs.Elimination.{outflow_of};

/// A chain of states and the rates between them, in continuous time, as whole numbers.
///
/// It has 2 to 4096 states. Each state but the first has a rate to an earlier one, and the rates out of
/// each state sum to at most `top`, from 1 to 2^36.
pub trait Chain {
    ghost states: { Self → ℕ };

    ghost rates: { Self → ℕ → ℕ → ℕ };

    ghost most: { Self → ℕ };

    /// How many states there are.
    fn size(&self) -> usize
        ensures states { result ≡ states self.now }
        ensures least { 2 ≤ result }
        ensures most { result ≤ 4096 }
        ensures descends { Descends (states self.now) (rates self.now) };

    /// The rate from one state to another.
    fn rate(&self, from: usize, to: usize) -> u64
        requires from { from < states self.now }
        requires to { to < states self.now }
        requires apart { from ≢ to }
        ensures { result ≡ rates self.now from to };

    /// No state's rates to the others sum to more than this.
    fn top(&self) -> u64
        ensures top { result ≡ most self.now }
        ensures least { 1 ≤ result }
        ensures most { result ≤ 2 ^ 36 }
        ensures bounded { (i : ℕ) → i < states self.now
            → outflow_of (states self.now) (rates self.now) i ≤ result };
}

/// The balance of a chain at every state has a solution in whole numbers, not all 0; every solution has a
/// mass at the first state; and any two solutions are proportional.
///
/// It answers nothing: its contract is the theorem (Grassmann, Taksar and Heyman 1985).
pub fn law_descending<C: Chain>(chain: &C)
    ensures exists { HasTableSolution (C.states chain.now) (C.rates chain.now) }
    ensures first { IsFirstPositive (C.states chain.now) (C.rates chain.now) }
    ensures proportion { AreProportional (C.states chain.now) (C.rates chain.now) }
{
    let _size = chain.size();
}
