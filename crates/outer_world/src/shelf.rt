ghost use Rattle.std.specs.Prelude.{◌≡◌, ◌≢◌, ◌<◌, ◌≤◌, ℕ, List, Bool, Option, true, length};
ghost use Rattle.outer_world.specs.Faults.{Rose};
ghost use Rattle.outer_world.specs.Shelf.{Opens, Reads};
ghost use Rattle.outer_world.specs.declared.named_text.NamedText.{NamedText};

use std::alloc::Global;

/// The most bytes that a name has by which a text is asked for.
pub const MOST_SHELF_NAME_BYTES: usize = 255;

/// What came of opening a text.
#[derive(Clone, Copy, Debug, PartialEq, Eq)]
pub enum Opening {
    /// The text is open, at its first byte.
    Opened,
    /// There is no text of this name.
    Absent,
    /// A fault, which the shelf has counted.
    Failed,
    /// There was no memory for it.
    NoMemory,
}

/// What came of one read.
#[derive(Clone, Copy, Debug, PartialEq, Eq)]
pub enum Reading {
    /// So many bytes, at least one, stand at the front of the piece.
    Got(usize),
    /// No bytes are left, or nothing is open.
    End,
    /// A fault, which the shelf has counted. Nothing is open now.
    Failed,
}

/// Named texts, of which one at a time is open and is read piece by piece.
///
/// A shelf counts its faults and keeps the name of the last, so that whoever hears of a failure
/// can see that it happened and where. No order of calls raises the count without a fault.
pub trait Shelf {
    // The named texts, if the shelf tells them.
    ghost told: { Self → Option (List NamedText) };

    // The bytes left of the text that is open, if the shelf tells its texts.
    ghost left: { Self → Option (List ℕ) };

    // The name of the text that is open.
    ghost open_name: { Self → Option (List ℕ) };

    ghost faults: { Self → ℕ };

    // The name that the last fault concerned.
    ghost last_fault: { Self → Option (List ℕ) };

    // Where the count of faults stops, if anywhere.
    ghost last_count: { Option ℕ };

    // Whether opening a text takes memory, and so may find none.
    ghost takes_memory: { Bool };

    /// Opens the text of this name, and closes what was open before.
    fn open(&mut self, alloc: Global, name: &str) -> Opening
        requires { length name.now ≤ MOST_SHELF_NAME_BYTES }
        ensures told { told self.new ≡ told self.old }
        ensures opens { Opens (told self.old) name.now result (open_name self.new) (left self.new) }
        ensures no_memory { result ≡ Opening.NoMemory → takes_memory ≡ true }

        ensures later { faults self.old ≤ faults self.new }
        ensures failed { result ≡ Opening.Failed
            → Rose last_count (faults self.old) (faults self.new) }
        ensures fault_name { result ≡ Opening.Failed → last_fault self.new ≡ Some name.now }
        ensures no_fault { result ≢ Opening.Failed → faults self.new ≡ faults self.old }
        ensures no_fault_name { result ≢ Opening.Failed
            → last_fault self.new ≡ last_fault self.old };

    /// Reads the next bytes of the open text to the front of the piece.
    fn read(&mut self, piece: &mut [u8]) -> Reading
        requires { 0 < length piece.old }
        ensures told { told self.new ≡ told self.old }
        ensures reads { Reads (open_name self.old) (left self.old) result piece.new
            (open_name self.new) (left self.new) }

        ensures later { faults self.old ≤ faults self.new }
        ensures failed { result ≡ Reading.Failed
            → Rose last_count (faults self.old) (faults self.new) }
        ensures fault_name { result ≡ Reading.Failed → last_fault self.new ≡ open_name self.old }
        ensures no_fault { result ≢ Reading.Failed → faults self.new ≡ faults self.old }
        ensures no_fault_name { result ≢ Reading.Failed
            → last_fault self.new ≡ last_fault self.old };
}
