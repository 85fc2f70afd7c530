ghost use Rattle.std.specs.Prelude.{◌≡◌, ℕ, ◌<◌, ◌≤◌, length, slice_index_or};
ghost use Rattle.fixed_interval.specs.Ends.{exact_ends};
ghost use Rattle.rate_matrix.specs.Bands.{HasSameFrame, IsKept, cap, entry, no_band};
ghost use Rattle.rate_matrix.specs.Elimination.{raised_entries};
ghost use Rattle.rate_matrix.specs.Rows.{CanUpdate, IsUpdated, part_in};

use crate::band::Band;
use crate::gate::{Gate, OpenGate};
use crate::matrix::RateMatrix;
use crate::rows::Elimination;
use fixed_interval::Iv;
use std::thread::Threads;

impl RateMatrix {
    /// Changes the entries between the states that are alive as the elimination of the next state asks: the
    /// part `parts[j]` of the entry from state i to that state is added to the entry from i to j.
    ///
    /// The state is the first that is not alive, and `parts[j]` is what of its way out goes to state j. Each
    /// new value is the answer of `gate.cell`, which is not called if the part or the entry is 0, since
    /// nothing changes there. The rows of each level are cut into as many chunks as there are workers, of whole
    /// rows, which are worked on at the same time; one worker starts no thread.
    pub fn update_rows<R: Threads + Sync, G: Gate + Sync>(
        &mut self,
        rt: &R,
        parts: &[Iv],
        workers: u32,
        gate: &G,
        place: usize,
    )
        requires eliminated { self.old.alive < self.old.size }
        requires some { 1 ≤ workers }
        requires most { workers ≤ 16 }
        requires parts { self.old.alive ≤ length parts.now }
        requires kept { (j : ℕ) → j < self.old.alive → ¬ IsKept self.old self.old.alive j
            → part_in parts.now j ≡ exact_ends 0 }
        ensures frame { HasSameFrame self.old self.new }
        ensures alive { self.new.alive ≡ self.old.alive }
        ensures entries { (i j : ℕ) → i < self.old.size → j < self.old.size → entry self.new i j
            ≡ raised_entries (part_in parts.now) (entry self.old) (cap self.old) self.old.alive i j }
    {
        let elimination = Elimination {
            state: self.alive,
            scale: self.scale,
            outflows: &self.outflows,
            parts,
            gate,
            place,
        };
        update_bands(rt, workers, &elimination, &mut self.bands);
    }

    /// The same change as that of `update_rows`, without threads: one row after the other.
    pub fn update_rows_alone(&mut self, parts: &[Iv])
        requires eliminated { self.old.alive < self.old.size }
        requires parts { self.old.alive ≤ length parts.now }
        requires kept { (j : ℕ) → j < self.old.alive → ¬ IsKept self.old self.old.alive j
            → part_in parts.now j ≡ exact_ends 0 }
        ensures frame { HasSameFrame self.old self.new }
        ensures alive { self.new.alive ≡ self.old.alive }
        ensures entries { (i j : ℕ) → i < self.old.size → j < self.old.size → entry self.new i j
            ≡ raised_entries (part_in parts.now) (entry self.old) (cap self.old) self.old.alive i j }
    {
        let elimination = Elimination {
            state: self.alive,
            scale: self.scale,
            outflows: &self.outflows,
            parts,
            gate: &OpenGate,
            place: 0,
        };
        update_bands_alone(&elimination, &mut self.bands);
    }
}

/// Changes the rows of every band, one band after the other.
pub(crate) fn update_bands<R: Threads + Sync, G: Gate + Sync>(
    rt: &R,
    workers: u32,
    elimination: &Elimination<'_, G>,
    bands: &mut [Band],
)
    requires workers { 1 ≤ workers }
    requires bands { (l : ℕ) → l < length bands.old → CanUpdate elimination.now (slice_index_or bands.old l no_band) }
    ensures { (l : ℕ) → l < length bands.old
        → IsUpdated elimination.now (slice_index_or bands.old l no_band) (slice_index_or bands.new l no_band) }
{
    for level in 0..bands.len() {
        bands[level].update(rt, workers, elimination);
    }
}

/// Changes the rows of every band, one after the other and without threads.
pub(crate) fn update_bands_alone<G: Gate>(elimination: &Elimination<'_, G>, bands: &mut [Band])
    requires bands { (l : ℕ) → l < length bands.old → CanUpdate elimination.now (slice_index_or bands.old l no_band) }
    ensures { (l : ℕ) → l < length bands.old
        → IsUpdated elimination.now (slice_index_or bands.old l no_band) (slice_index_or bands.new l no_band) }
{
    for level in 0..bands.len() {
        bands[level].update_alone(elimination);
    }
}
