ghost use Rattle.std.specs.Prelude.{◌≡◌, ℕ, ◌+◌, ◌<◌, ◌≤◌, ◌↔◌, true, IfOk, length, slice_index};
ghost use Rattle.hyper_model.specs.Plans.{units};
ghost use Rattle.hyper_model.specs.Words.{words};
ghost use Rattle.rate_matrix.specs.Bands.{IsKept, IsMatrixOf};
ghost use Rattle.rate_matrix.specs.LevelBands.{AreBandsOf, below_level, level_band};
ghost use Rattle.rate_matrix.specs.WordChains.{AreNeighbours, rank_level, word_rates, word_top};

use crate::band::Band;
use crate::chain::Chain;
use crate::matrix::RateMatrix;
use crate::words::WordChain;
use busy_words::level;
use std::alloc::{AllocError, Global};

impl RateMatrix {
    /// The matrix of a plan's words, before any elimination, in the packed form.
    ///
    /// It has the entries of the dense form, and keeps in memory those between words whose numbers of busy
    /// units differ by one at most. No elimination makes another.
    pub fn packed(alloc: Global, chain: &WordChain) -> Result<RateMatrix, AllocError>
        ensures rates { IfOk result (IsMatrixOf (words chain.now.plan.now)
            (word_rates chain.now.plan.now chain.now.order.now) (word_top chain.now.plan.now)) }
        ensures form { IfOk result (λ m. m.packed ≡ true) }
        ensures kept { IfOk result (λ m. (i j : ℕ) → i < m.size → j < m.size
            → IsKept m i j ↔ AreNeighbours chain.now.plan.now chain.now.order.now i j) }
    {
        let _units = chain.order.units();
        let levels = levels_of(alloc, chain)?;
        let bands = bands_of(alloc, &levels, chain.plan.units())?;
        RateMatrix::of_chain(alloc, chain, true, levels, bands)
    }
}

// The number of busy units of each word, by rank.
fn levels_of(alloc: Global, chain: &WordChain) -> Result<Vec<usize>, AllocError>
    ensures count { IfOk result (λ levels. length levels.items ≡ words chain.now.plan.now) }
    ensures most { IfOk result (λ levels. length levels.items ≤ 4096) }
    ensures levels { IfOk result (λ levels. (i : ℕ) → i < words chain.now.plan.now
        → slice_index levels.items i ≡ rank_level chain.now.plan.now chain.now.order.now i) }
{
    let size = chain.size();
    let mut levels = Vec::with_capacity(alloc, size)?;
    for rank in 0..size {
        levels.push(usize::from(level(chain.order.word(rank))))?;
    }
    Ok(levels)
}

// A band for each level up to the last, which keeps the columns of the levels beside it.
fn bands_of(alloc: Global, levels: &[usize], last: usize) -> Result<Vec<Band>, AllocError>
    requires last { last ≤ 12 }
    requires few { length levels.now ≤ 4096 }
    ensures { IfOk result (λ bands. AreBandsOf levels.now (last + 1) bands.items) }
{
    let mut bands = Vec::with_capacity(alloc, last + 1)?;
    for level in 0..last + 1 {
        bands.push(band_of_level(alloc, levels, level)?)?;
    }
    Ok(bands)
}

#[tactic(auto, unfolding(crate::specs::LevelBands::level_band))]
fn band_of_level(alloc: Global, levels: &[usize], level: usize) -> Result<Band, AllocError>
    requires level { level ≤ 12 }
    requires few { length levels.now ≤ 4096 }
    ensures { IfOk result (λ band. band ≡ level_band levels.now level) }
{
    let first = count_below(levels, level);
    let left = count_below(levels, level.saturating_sub(1));
    let rows = count_below(levels, level + 1).saturating_sub(first);
    let width = count_below(levels, level + 2).saturating_sub(left);
    Band::zeros(alloc, first, rows, left, width)
}

// How many states are of a lower level than this.
fn count_below(levels: &[usize], level: usize) -> usize
    ensures count { result ≡ below_level levels.now level }
    ensures most { result ≤ length levels.now }
{
    levels.iter().filter(|l| **l < level).count()
}
