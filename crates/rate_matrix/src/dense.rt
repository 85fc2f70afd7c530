ghost use Rattle.std.specs.Prelude.{◌≡◌, ◌≢◌, ℕ, ◌/◌, ◌^◌, ◌<◌, false, IfOk};
ghost use Rattle.hyper_model.specs.Tables.{between_states};
ghost use Rattle.rate_matrix.specs.Bands.{HasSameShape, IsBanded, IsMatrixOf, band_of, has_column, layout};

use crate::band::Band;
use crate::chain::Chain;
use crate::matrix::RateMatrix;
use std::alloc::{AllocError, Global};

impl RateMatrix {
    /// The matrix of a chain, before any elimination, in the dense form.
    ///
    /// The scale is 2^62 over the chain's `top`, rounded down. Each entry is the rate times the scale, and
    /// the entry from a state to itself is 0, whatever rate the chain has there.
    pub fn dense<C: Chain>(alloc: Global, chain: &C) -> Result<RateMatrix, AllocError>
        ensures rates { IfOk result (IsMatrixOf (C.states chain.now) (C.rates chain.now) (C.most chain.now)) }
        ensures form { IfOk result (λ m. m.packed ≡ false) }
    {
        let size = chain.size();
        let levels = vec![in alloc; 0; size]?;
        let mut bands = Vec::with_capacity(alloc, 1)?;
        bands.push(Band::zeros(alloc, 0, size, 0, size)?)?;
        RateMatrix::of_chain(alloc, chain, false, levels, bands)
    }

    /// The matrix of a chain, before any elimination, in these bands.
    pub(crate) fn of_chain<C: Chain>(
        alloc: Global,
        chain: &C,
        packed: bool,
        levels: Vec<usize>,
        mut bands: Vec<Band>,
    ) -> Result<RateMatrix, AllocError>
        requires banded { IsBanded (layout (C.states chain.now) packed levels.items bands.items) }
        requires zeros { (i j : ℕ) → i < C.states chain.now → j < C.states chain.now
            → has_column (band_of (layout (C.states chain.now) packed levels.items bands.items) i) j ≡ false
            → between_states (C.rates chain.now) i j ≡ 0 }
        ensures rates { IfOk result (IsMatrixOf (C.states chain.now) (C.rates chain.now) (C.most chain.now)) }
        ensures form { IfOk result (λ m. m.packed ≡ packed) }
        ensures shape { IfOk result (λ m. (i : ℕ) → HasSameShape
            (band_of (layout (C.states chain.now) packed levels.items bands.items) i) (band_of m i)) }
    {
        let size = chain.size();
        let scale = (1 << 62) / chain.top();
        let mut outflows = Vec::with_capacity(alloc, size)?;
        for i in 0..size {
            let level = levels[i];
            let outflow = bands[level].fill_row(chain, scale, i);
            outflows.push(outflow)?;
        }
        Ok(RateMatrix::of_bands(size, scale, packed, outflows, levels, bands))
    }
}
