ghost use Rattle.hypercube_cli.specs.Tasks.MadePlans.{make_meaning};

use crate::Refusal;
use crate::answer::Answer;
use crate::stop::Stop;
use crate::tasks::Task;
use hyper_model::{Enclosures, Method, Plan};
use outer_world::Shelf;
use plan_maker::{MakeRefusal, make};
use std::alloc::{AllocError, Global};

/// Makes a plan's text.
#[derive(Drop)]
pub(crate) struct Make {
    pub units: u64,
    pub number: u64,
}

impl Task for Make {
    ghost meaning = { λ task. make_meaning task.units task.number };

    ghost in_range = { λ _. Unit {0} };

    fn answer<S: Shelf, E: Fn(&[Plan], Method, u32) -> Result<Vec<Enclosures>, AllocError>>(
        self,
        alloc: Global,
        _shelf: &mut S,
        _enclose: &E,
    ) -> Result<Answer, Stop> {
        match make(alloc, self.units, self.number) {
            Ok(text) => Ok(Answer::of_text(text)),
            Err(MakeRefusal::NoMemory) => Err(Stop::NoMemory),
            Err(refusal) => Err(Stop::Refused(Refusal::Make(refusal))),
        }
    }
}
