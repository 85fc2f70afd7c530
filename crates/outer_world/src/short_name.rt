ghost use Rattle.std.specs.Prelude.{◌≡◌, ◌≤◌, ℕ, List, length, take};
ghost use Rattle.outer_world.specs.declared.shelf.TheConstants.{MOST_SHELF_NAME_BYTES};

use crate::shelf::MOST_SHELF_NAME_BYTES;
use std::marker::Model;

/// A name of at most 255 bytes, kept without memory from an allocator.
#[derive(Drop)]
pub(crate) struct ShortName {
    bytes: [u8; MOST_SHELF_NAME_BYTES],
    len: usize,
}

impl Model for ShortName {
    ghost Value = { List ℕ };

    ghost view = { λ a. take a.len a.bytes };

    ghost invariant = { λ a. a.len ≤ MOST_SHELF_NAME_BYTES };
}

impl ShortName {
    pub(crate) fn of(name: &str) -> ShortName
        requires { length name.now ≤ MOST_SHELF_NAME_BYTES }
        ensures { result ≡ name.now }
    {
        let mut bytes = [0; MOST_SHELF_NAME_BYTES];
        bytes[..name.len()].copy_from_slice(name.as_bytes());
        ShortName {
            bytes,
            len: name.len(),
        }
    }
}
