ghost use Rattle.std.specs.Prelude.{◌≡◌, ◌≢◌, ◌≤◌, OnOk, OnErr};
ghost use Rattle.std.specs.Result.{IsErrOf};
ghost use Rattle.std.specs.Io.KnownBytes.{Appends};
ghost use Rattle.outer_world.specs.Faults.{Rose};
ghost use Rattle.outer_world.specs.Sink.{AppendsFront};

use crate::sink::{Sink, Writing};
use std::alloc::Global;

/// Why a text was not written to its end.
#[derive(Clone, Copy, Debug, PartialEq, Eq)]
pub enum WriteEnd {
    /// A fault, which the sink has counted.
    Failed,
    /// There was no memory for it.
    NoMemory,
}

/// Writes all of this text. After an error the sink has taken a front of it.
pub fn write_text<K: Sink>(alloc: Global, sink: &mut K, text: &[u8]) -> Result<(), WriteEnd>
    ensures whole { OnOk result (Appends (K.taken sink.old) (K.taken sink.new) text.now) }
    ensures front { OnErr result (AppendsFront (K.taken sink.old) (K.taken sink.new) text.now) }

    ensures later { K.faults sink.old ≤ K.faults sink.new }
    ensures failed { IsErrOf result WriteEnd.Failed
        → Rose K.last_count (K.faults sink.old) (K.faults sink.new) }
    ensures no_fault { result ≢ Err WriteEnd.Failed → K.faults sink.new ≡ K.faults sink.old }
{
    let mut rest = text;
    while !rest.is_empty() {
        match sink.write(alloc, rest) {
            Writing::Took(count) => rest = rest.split_at(count).1,
            Writing::Failed => return Err(WriteEnd::Failed),
            Writing::NoMemory => return Err(WriteEnd::NoMemory),
        }
    }
    Ok(())
}
