ghost use Rattle.std.specs.Prelude.{◌≡◌, ◌≢◌, ◌≤◌, ℕ, List, Some, length, vec_len, IfOk, IsSome};
ghost use Rattle.std.specs.Result.{IsErrOf};
ghost use Rattle.outer_world.specs.Faults.{Rose};
ghost use Rattle.outer_world.specs.Shelf.{LacksText};
ghost use Rattle.outer_world.specs.Taken.{IsTaken, taken};

use crate::shelf::{MOST_SHELF_NAME_BYTES, Opening, Reading, Shelf};
use std::alloc::Global;

/// The most bytes that are read of a text: one more than a text of records may have, so that a
/// longer one is seen to be longer.
pub const MOST_BYTES: usize = 4194305;

/// How many bytes a shelf is asked for at a time.
const PIECE_BYTES: usize = 4096;

/// Why a text was not read.
#[derive(Clone, Copy, Debug, PartialEq, Eq)]
pub enum ReadEnd {
    /// The shelf has no text of this name.
    Absent,
    /// A fault, which the shelf has counted under this name.
    Failed,
    /// There was no memory for it.
    NoMemory,
}

/// Reads the text of this name to its end, or its first 4,194,305 bytes if it has more.
pub fn read_text<S: Shelf>(alloc: Global, shelf: &mut S, name: &str) -> Result<Vec<u8>, ReadEnd>
    requires { length name.now ≤ MOST_SHELF_NAME_BYTES }
    ensures told { S.told shelf.new ≡ S.told shelf.old }
    ensures text { IfOk result (λ text. IsTaken (S.told shelf.old) name.now text.items) }
    ensures most { IfOk result (λ text. vec_len text ≤ MOST_BYTES) }
    ensures absent { IsErrOf result ReadEnd.Absent → LacksText (S.told shelf.old) name.now }

    ensures later { S.faults shelf.old ≤ S.faults shelf.new }
    ensures failed { IsErrOf result ReadEnd.Failed
        → Rose S.last_count (S.faults shelf.old) (S.faults shelf.new) }
    ensures fault_name { IsErrOf result ReadEnd.Failed → S.last_fault shelf.new ≡ Some name.now }
    ensures no_fault { result ≢ Err ReadEnd.Failed → S.faults shelf.new ≡ S.faults shelf.old }
    ensures no_fault_name { result ≢ Err ReadEnd.Failed
        → S.last_fault shelf.new ≡ S.last_fault shelf.old }
{
    match shelf.open(alloc, name) {
        Opening::Opened => read_open(alloc, shelf),
        Opening::Absent => Err(ReadEnd::Absent),
        Opening::Failed => Err(ReadEnd::Failed),
        Opening::NoMemory => Err(ReadEnd::NoMemory),
    }
}

fn read_open<S: Shelf>(alloc: Global, shelf: &mut S) -> Result<Vec<u8>, ReadEnd>
    requires { IsSome (S.open_name shelf.old) }
    ensures told { S.told shelf.new ≡ S.told shelf.old }
    ensures text { IfOk result (λ text. (whole : List ℕ)
        → S.left shelf.old ≡ Some whole → text.items ≡ taken whole) }
    ensures most { IfOk result (λ text. vec_len text ≤ MOST_BYTES) }
    ensures present { result ≢ Err ReadEnd.Absent }

    ensures later { S.faults shelf.old ≤ S.faults shelf.new }
    ensures failed { IsErrOf result ReadEnd.Failed
        → Rose S.last_count (S.faults shelf.old) (S.faults shelf.new) }
    ensures fault_name { IsErrOf result ReadEnd.Failed
        → S.last_fault shelf.new ≡ S.open_name shelf.old }
    ensures no_fault { result ≢ Err ReadEnd.Failed → S.faults shelf.new ≡ S.faults shelf.old }
    ensures no_fault_name { result ≢ Err ReadEnd.Failed
        → S.last_fault shelf.new ≡ S.last_fault shelf.old }
{
    let mut text = Vec::new(alloc);
    let mut piece = [0u8; PIECE_BYTES];
    while text.len() < MOST_BYTES {
        let wanted = (MOST_BYTES - text.len()).min(PIECE_BYTES);
        match shelf.read(&mut piece[..wanted]) {
            Reading::Got(count) => {
                if text.extend_from_slice(&piece[..count]).is_err() {
                    return Err(ReadEnd::NoMemory);
                }
            }
            Reading::End => return Ok(text),
            Reading::Failed => return Err(ReadEnd::Failed),
        }
    }
    Ok(text)
}
