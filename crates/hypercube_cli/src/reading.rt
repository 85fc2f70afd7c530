ghost use Rattle.std.specs.Prelude.{◌≡◌, ◌≤◌, ℕ, List, Result, Some, IfErr, IfOk, IfSome, length};
ghost use Rattle.std.specs.Result.{IsErrOf};
ghost use Rattle.outer_world.specs.Faults.{Rose};
ghost use Rattle.hypercube_cli.specs.Endings.{Ending};
ghost use Rattle.hypercube_cli.specs.Readings.{Reaches, content_at, plan_in};
ghost use Rattle.hypercube_cli.specs.Stops.{IsOfCommand, IsOfReading};

use crate::Refusal;
use crate::stop::Stop;
use hyper_model::Plan;
use outer_world::{MOST_SHELF_NAME_BYTES, ReadEnd, Shelf, read_text};
use plan_reader::{PlanRefusal, read_plan};
use std::alloc::Global;

/// A kind of text that a command asks a shelf for: at which place, and what a text of this kind says.
pub(crate) trait Readable {
    /// What it says.
    type Content;

    ghost place: { Self → ℕ };

    // What the bytes of a text say, or the ending that stands in its place.
    ghost content: { Self → List ℕ → Result Self.Content Ending };

    // What holds of all that is read.
    ghost keeps: { Self → Self.Content → Type 0 };

    /// The place at which the command asks for it.
    fn place(&self) -> u32
        ensures { result ≡ place self.now };

    /// What a text says.
    fn read(&self, alloc: Global, text: &[u8]) -> Result<Self::Content, Stop>
        ensures content { Reaches (content self.now text.now) result }
        ensures keeps { IfOk result (keeps self.now) }
        ensures stop { IfErr result IsOfReading };
}

/// The text of a plan that the command asks for at this place.
#[derive(Clone, Copy, Debug, PartialEq, Eq)]
pub(crate) struct PlanText {
    pub place: u32,
}

impl Readable for PlanText {
    type Content = Plan;

    ghost place = { λ kind. kind.place };

    ghost content = { λ kind. plan_in kind.place };

    ghost keeps = { λ _ _. Unit {0} };

    fn place(&self) -> u32 {
        self.place
    }

    fn read(&self, alloc: Global, text: &[u8]) -> Result<Plan, Stop> {
        match read_plan(alloc, text) {
            Ok(plan) => Ok(plan),
            Err(PlanRefusal::NoMemory) => Err(Stop::NoMemory),
            Err(refusal) => Err(Stop::Refused(Refusal::Plan(self.place, refusal))),
        }
    }
}

/// What the text of this name says, read as one of this kind.
pub(crate) fn read_named<T: Readable, S: Shelf>(
    alloc: Global,
    shelf: &mut S,
    kind: &T,
    name: &str,
) -> Result<T::Content, Stop>
    requires { length name.now ≤ MOST_SHELF_NAME_BYTES }
    ensures content { IfSome (S.told shelf.old) (λ texts.
        Reaches (content_at (T.place kind.now) (T.content kind.now) texts name.now) result) }
    ensures keeps { IfOk result (T.keeps kind.now) }
    ensures stop { IfErr result IsOfCommand }
    ensures fault { IsErrOf result Stop.ReadFault → Rose S.last_count (S.faults shelf.old) (S.faults shelf.new)
        × (S.last_fault shelf.new ≡ Some name.now) }
    ensures told { S.told shelf.new ≡ S.told shelf.old }
    ensures count { S.faults shelf.old ≤ S.faults shelf.new }
{
    match read_text(alloc, shelf, name) {
        Ok(text) => kind.read(alloc, &text),
        Err(ReadEnd::Absent) => Err(Stop::Absent(kind.place())),
        Err(ReadEnd::Failed) => Err(Stop::ReadFault),
        Err(ReadEnd::NoMemory) => Err(Stop::NoMemory),
    }
}
