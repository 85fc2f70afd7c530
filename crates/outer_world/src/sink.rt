ghost use Rattle.std.specs.Prelude.{◌≡◌, ◌≢◌, ◌<◌, ◌≤◌, ℕ, List, Bool, Option, true, length};
ghost use Rattle.outer_world.specs.Faults.{Rose};
ghost use Rattle.outer_world.specs.Sink.{Takes};

use std::alloc::Global;

/// What came of one write.
#[derive(Clone, Copy, Debug, PartialEq, Eq)]
pub enum Writing {
    /// So many bytes, at least one, were taken from the front of the piece.
    Took(usize),
    /// A fault, which the sink has counted. It took nothing.
    Failed,
    /// There was no memory for it. The sink took nothing.
    NoMemory,
}

/// Takes bytes, one after the other, and counts its faults.
pub trait Sink {
    // The bytes that were taken, if the sink tells them.
    ghost taken: { Self → Option (List ℕ) };

    ghost faults: { Self → ℕ };

    // Where the count of faults stops, if anywhere.
    ghost last_count: { Option ℕ };

    // Whether a write takes memory, and so may find none.
    ghost takes_memory: { Bool };

    /// Takes bytes from the front of the piece.
    fn write(&mut self, alloc: Global, piece: &[u8]) -> Writing
        requires { 0 < length piece.now }
        ensures takes { Takes (taken self.old) (taken self.new) piece.now result }
        ensures no_memory { result ≡ Writing.NoMemory → takes_memory ≡ true }

        ensures later { faults self.old ≤ faults self.new }
        ensures failed { result ≡ Writing.Failed
            → Rose last_count (faults self.old) (faults self.new) }
        ensures no_fault { result ≢ Writing.Failed → faults self.new ≡ faults self.old };
}
