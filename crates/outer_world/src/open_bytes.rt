ghost use Rattle.std.specs.Prelude.{◌≡◌, ◌≢◌, ◌<◌, ◌≤◌, ◌++◌, Some, IfSome, min, length, take};
ghost use Rattle.std.specs.Option.{option_map};
ghost use Rattle.outer_world.specs.Shelf.{Reads, text_named};

use crate::named_text::NamedText;
use crate::shelf::{MOST_SHELF_NAME_BYTES, Reading};
use crate::short_name::ShortName;

/// A text in memory that is open, and what is left of it.
#[derive(Drop)]
pub(crate) struct OpenBytes<'a> {
    pub name: ShortName,
    pub rest: &'a [u8],
}

impl<'a> OpenBytes<'a> {
    /// The first text of this name, at its first byte.
    pub fn of(texts: &'a [NamedText], name: &str) -> Option<OpenBytes<'a>>
        requires { length name.now ≤ MOST_SHELF_NAME_BYTES }
        ensures name { IfSome result (λ opened. opened.name ≡ name.now) }
        ensures bytes { option_map (λ opened. opened.rest.now) result ≡ text_named texts.now name.now }
    {
        let rest = find_text(texts, name)?;
        Some(OpenBytes {
            name: ShortName::of(name),
            rest,
        })
    }

    /// Reads the next bytes, at most `step`, to the front of the piece.
    pub fn read(&mut self, step: usize, piece: &mut [u8]) -> Reading
        requires step { 0 < step }
        requires room { 0 < length piece.old }
        ensures reads { Reads (Some self.old.name) (Some self.old.rest.now) result piece.new
            (Some self.new.name) (Some self.new.rest.now) }
        ensures no_fault { result ≢ Reading.Failed }
    {
        match give(&mut self.rest, step, piece) {
            0 => Reading::End,
            count => Reading::Got(count),
        }
    }
}

/// The bytes of the first text of this name.
fn find_text<'a>(texts: &'a [NamedText], name: &str) -> Option<&'a [u8]>
    ensures { option_map (λ bytes. bytes.now) result ≡ text_named texts.now name.now }
{
    for text in texts {
        if text.name.text() == name {
            return Some(text.bytes.as_slice());
        }
    }
    None
}

/// Moves bytes from the front of the rest to the front of the piece: `step` of them, or as many as
/// there are and have room.
fn give(rest: &mut &[u8], step: usize, piece: &mut [u8]) -> usize
    requires step { 0 < step }
    requires room { 0 < length piece.old }
    ensures count { result ≡ min (min step (length piece.old)) (length rest.old.now) }
    ensures bytes { rest.old.now ≡ take result piece.new ++ rest.new.now }
{
    let count = step.min(piece.len()).min(rest.len());
    let (front, back) = rest.split_at(count);
    piece[..count].copy_from_slice(front);
    *rest = back;
    count
}
