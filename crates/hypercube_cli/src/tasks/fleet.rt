ghost use Rattle.std.specs.Prelude.{◌≡◌, IfOk};
ghost use Rattle.hypercube_cli.specs.Tasks.Fleets.{IsFleetReported, fleet_in, fleet_meaning};
ghost use Rattle.hypercube_cli.specs.Tasks.TrueFleets.{IsTrueFleet};

use crate::answer::Answer;
use crate::reading::{Readable, read_named};
use crate::stop::Stop;
use crate::tasks::Task;
use crate::{Outcome, Refusal};
use command_words::Name255;
use crew_stations::{Fleet, law_fleet};
use fleet_measures::{enclose_fleet, law_fleet_measures};
use fleet_text::{FleetReportEnd, fleet_label, fleet_report};
use hyper_model::{Enclosures, Method, Plan};
use outer_world::Shelf;
use plan_reader::{FleetRefusal, read_fleet};
use report_text::Widths;
use std::alloc::{AllocError, Global};

/// Reports the measures of a fleet whose crews stand at stations.
#[derive(Drop)]
pub(crate) struct FleetReport {
    pub file: Name255,
    pub widths: Widths,
    pub summary: bool,
}

impl Task for FleetReport {
    ghost meaning = { λ task. fleet_meaning task.file task.widths task.summary };

    ghost in_range = { λ _. Unit {0} };

    fn answer<S: Shelf, E: Fn(&[Plan], Method, u32) -> Result<Vec<Enclosures>, AllocError>>(
        self,
        alloc: Global,
        shelf: &mut S,
        _enclose: &E,
    ) -> Result<Answer, Stop> {
        let fleet = read_named(alloc, shelf, &FleetText, self.file.text())?;
        law_fleet(&fleet);
        Ok(fleet_answer(alloc, &fleet, self.widths, self.summary)?)
    }
}

/// The text of a fleet, which the command asks for at place 1.
#[derive(Clone, Copy, Debug, PartialEq, Eq)]
struct FleetText;

impl Readable for FleetText {
    type Content = Fleet;

    ghost place = { λ _. 1 };

    ghost content = { λ _. fleet_in };

    ghost keeps = { λ _ _. Unit {0} };

    fn place(&self) -> u32 {
        1
    }

    fn read(&self, alloc: Global, text: &[u8]) -> Result<Fleet, Stop> {
        match read_fleet(alloc, text) {
            Ok(fleet) => Ok(fleet),
            Err(FleetRefusal::NoMemory) => Err(Stop::NoMemory),
            Err(refusal) => Err(Stop::Refused(Refusal::Fleet(refusal))),
        }
    }
}

/// The report of a fleet, or its summary, or the first of its measures that is too wide.
fn fleet_answer(
    alloc: Global,
    fleet: &Fleet,
    widths: Widths,
    summary: bool,
) -> Result<Answer, AllocError>
    ensures ending { IfOk result (IsFleetReported fleet.now widths summary) }
    ensures proved { IfOk result (λ answer. answer.outcome ≡ Outcome.Done → IsTrueFleet fleet.now summary answer.text) }
{
    law_fleet(fleet);
    law_fleet_measures();
    let found = enclose_fleet(alloc, fleet)?;
    match fleet_report(alloc, fleet, &found, summary, widths) {
        Ok(text) => Ok(Answer::of_text(text)),
        Err(FleetReportEnd::TooWide(measure, low, high)) => {
            Answer::of_wide_fleet(
                alloc,
                &fleet_label(alloc, fleet, measure)?,
                measure,
                low,
                high,
            )
        }
        Err(FleetReportEnd::NoMemory) => Err(AllocError),
    }
}
