ghost use Rattle.std.specs.Prelude.{◌≡◌, ◌≢◌, ℕ, ◌-◌, ◌*◌, ◌^◌, ◌<◌, ◌≤◌, true};
ghost use Rattle.fixed_interval.specs.Ends.{Ends};
ghost use Rattle.busy_words.specs.Algebra.{total_ends};
ghost use Rattle.rate_matrix.specs.Bands.{HasSameFrame, IsKept, IsSound, band_of, cap, entry, has_column, outflow, matrix_of_bands};

use crate::band::Band;
use fixed_interval::{Iv, Wide};
use std::marker::Model;

/// The rates between the states of a chain, in intervals and in one scale, while the states are eliminated
/// one after the other from the last on.
///
/// An entry is kept in memory or is 0. The dense form keeps each entry, the packed form those between
/// states whose levels are at most one apart. At every time, the low ends of each row's entries to earlier
/// states sum to at least the scale, but for the first row, and no entry goes past the outflow of its row
/// in this scale.
#[derive(Debug, Drop)]
pub struct RateMatrix {
    size: usize,
    pub(crate) alive: usize,
    pub(crate) scale: u64,
    packed: bool,
    pub(crate) outflows: Vec<u64>,
    levels: Vec<usize>,
    pub(crate) bands: Vec<Band>,
}

impl Model for RateMatrix {
    ghost use Rattle.rate_matrix.specs.Bands.{BandedRates, IsSound};

    ghost Value = { BandedRates };

    ghost view = { λ a. record { size = a.size; alive = a.alive; scale = a.scale; packed = a.packed; outflows = a.outflows.items; levels = a.levels.items; bands = a.bands.items } };

    ghost invariant = { λ a. IsSound (record { size = a.size; alive = a.alive; scale = a.scale; packed = a.packed; outflows = a.outflows.items; levels = a.levels.items; bands = a.bands.items }) };
}

impl RateMatrix {
    /// The matrix with these outflows and bands, of which no state is eliminated.
    pub(crate) fn of_bands(
        size: usize,
        scale: u64,
        packed: bool,
        outflows: Vec<u64>,
        levels: Vec<usize>,
        bands: Vec<Band>,
    ) -> RateMatrix
        requires { IsSound (matrix_of_bands size scale packed outflows.items levels.items bands.items) }
        ensures { result ≡ matrix_of_bands size scale packed outflows.items levels.items bands.items }
    {
        RateMatrix {
            size,
            alive: size,
            scale,
            packed,
            outflows,
            levels,
            bands,
        }
    }

    /// How many states there are, 2 to 4096.
    pub fn size(&self) -> usize
        ensures size { result ≡ self.now.size }
        ensures least { 2 ≤ result }
        ensures most { result ≤ 4096 }
        ensures sound { IsSound self.now }
    {
        self.size
    }

    /// How many states are not yet eliminated: the first ones.
    pub fn alive(&self) -> usize
        ensures alive { result ≡ self.now.alive }
        ensures least { 1 ≤ result }
        ensures most { result ≤ self.now.size }
        ensures sound { IsSound self.now }
    {
        self.alive
    }

    /// The scale of the entries: a rate of 1 is the entry with both ends `scale`. At least 2^26.
    pub fn scale(&self) -> u64
        ensures scale { result ≡ self.now.scale }
        ensures least { 2 ^ 26 ≤ result }
        ensures sound { IsSound self.now }
    {
        self.scale
    }

    /// Whether only the entries between states of neighbouring levels are kept in memory.
    pub fn is_packed(&self) -> bool
        ensures { result ≡ self.now.packed }
    {
        self.packed
    }

    /// Whether the entry from state i to state j is kept in memory. Elsewhere it is 0.
    pub fn is_kept(&self, i: usize, j: usize) -> bool
        requires { i < self.now.size }
        ensures { result ≡ has_column (band_of self.now i) j }
    {
        self.bands[self.levels[i]].has_column(j)
    }

    /// The sum of the rates out of state i. In the scale of the entries it is at most 2^62.
    pub fn outflow(&self, i: usize) -> u64
        requires { i < self.now.size }
        ensures outflow { result ≡ outflow self.now i }
        ensures most { cap self.now i ≤ 2 ^ 62 }
    {
        self.outflows[i]
    }

    /// The entry from state i to state j.
    pub fn entry(&self, i: usize, j: usize) -> Iv
        requires row { i < self.now.size }
        requires column { j < self.now.size }
        ensures entry { result ≡ entry self.now i j }
        ensures ordered { i ≢ j → result.lo ≤ result.hi }
        ensures capped { i ≢ j → result.hi ≤ cap self.now i }
    {
        self.bands[self.levels[i]].entry(i, j)
    }

    /// What leaves a state for the states before it: the sum of its entries to them.
    ///
    /// Its low end is at least 2^26, but for the first state, which nothing leaves so.
    pub fn total_leaving(&self, state: usize) -> Wide
        requires { state < self.now.size }
        ensures sum { result ≡ total_ends state (entry self.now state) }
        ensures least { 0 < state → 2 ^ 26 ≤ result.lo }
        ensures ordered { result.lo ≤ result.hi }
        ensures in_range { result.hi ≤ state * 2 ^ 62 }
    {
        let _size = self.size();
        let mut sum = Wide::new(0, 0);
        for j in 0..state {
            sum = sum.plus(self.entry(state, j).wide());
        }
        sum
    }

    /// Counts the last state that is alive as eliminated.
    pub fn retire(&mut self)
        requires { 2 ≤ self.old.alive }
        ensures { self.new ≡ record self.old { alive = self.old.alive - 1 } }
    {
        self.alive -= 1;
    }

    /// Puts an interval in the place of the entry from state i to state j. Its low end is no lower than that
    /// of the entry.
    pub fn raise(&mut self, i: usize, j: usize, value: Iv)
        requires eliminated { self.old.alive < self.old.size }
        requires row { i < self.old.alive }
        requires column { j < self.old.alive }
        requires apart { i ≢ j }
        requires kept { self.old.packed ≡ true → IsKept self.old i j }
        requires grows { (entry self.old i j).lo ≤ value.lo }
        requires capped { value.hi ≤ cap self.old i }
        ensures frame { HasSameFrame self.old self.new }
        ensures alive { self.new.alive ≡ self.old.alive }
        ensures changed { entry self.new i j ≡ value }
        ensures others { (p q : ℕ) → p < self.old.size → q < self.old.size → (p ≡ i → q ≢ j)
            → entry self.new p q ≡ entry self.old p q }
    {
        // Its ends are in order, as each of its calls says.
        let _low = value.lo();
        let level = self.levels[i];
        self.bands[level].put(i, j, value);
    }
}
