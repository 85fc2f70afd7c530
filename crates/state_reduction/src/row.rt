ghost use Rattle.std.specs.Prelude.{◌≡◌, ◌<◌, ◌≤◌, IfOk, length, slice_set};

use fixed_interval::Iv;
use std::alloc::{AllocError, Global};
use std::marker::Model;

/// A scratch row of intervals, for the parts of the state that an elimination takes away.
///
/// Contracts see its places as a list, and say nothing of what they hold between calls.
#[derive(Debug, Drop)]
pub struct Row {
    parts: Vec<Iv>,
}

impl Model for Row {
    ghost use Rattle.std.specs.Prelude.{List};
    ghost use Rattle.fixed_interval.specs.Ends.{Ends};

    ghost Value = { List Ends };

    ghost view = { λ a. a.parts.items };
}

impl Row {
    /// A row of `n` places, at most 4096.
    pub fn reserved(alloc: Global, n: usize) -> Result<Row, AllocError>
        requires { n ≤ 4096 }
        ensures { IfOk result (λ row. length row ≡ n) }
    {
        Ok(Row {
            parts: vec![in alloc; Iv::exact(0); n]?,
        })
    }

    pub(crate) fn as_slice(&self) -> &[Iv]
        ensures { result.now ≡ self.now }
    {
        self.parts.as_slice()
    }

    pub(crate) fn put(&mut self, place: usize, part: Iv)
        requires { place < length self.old }
        ensures { self.new ≡ slice_set self.old place part }
    {
        self.parts[place] = part;
    }
}
