use csv::{ByteRecord, ReaderBuilder};
use day_replay::{ReplayEnd, read_day, replay};
use hyper_model::Plan;
use plan_reader::read_plan;
use std::alloc::{AllocError, Global};
use std::fmt;

/// How a text is read.
#[derive(Clone, Copy)]
pub(crate) enum Way<'p> {
    /// Each record's fields by the CSV reader alone, with the settings of the plan reader.
    Fields,
    /// The whole plan.
    Plan,
    /// The whole day, which is then played again by the lists of this plan.
    Day(&'p Plan),
}

impl fmt::Display for Way<'_> {
    fn fmt<W: fmt::Write>(&self, f: &mut fmt::Formatter<W>) -> fmt::Result {
        match self {
            Way::Fields => f.write_str("the fields alone"),
            Way::Plan => f.write_str("the whole plan"),
            Way::Day(_) => f.write_str("the whole day, played again"),
        }
    }
}

/// Reads a text, and says what was found in it.
pub(crate) fn read(alloc: Global, way: Way<'_>, text: &[u8]) -> Result<String, AllocError> {
    match way {
        Way::Fields => {
            let records = count_records(alloc, text)?;
            format!(in alloc; "records {records}")
        }
        Way::Plan => match read_plan(alloc, text) {
            Ok(plan) => {
                let (units, atoms) = (plan.units(), plan.atoms());
                format!(in alloc; "units {units}, atoms {atoms}")
            }
            Err(refusal) => format!(in alloc; "refused: {refusal}"),
        },
        Way::Day(plan) => match read_day(alloc, plan, text) {
            Ok(day) => match replay(alloc, plan, &day) {
                Ok(played) => {
                    let (calls, sends) = (played.calls(), played.len());
                    format!(in alloc; "calls {calls}, sends {sends}")
                }
                Err(ReplayEnd::NotBusy(record)) => {
                    format!(in alloc; "refused: record {record} frees a unit that is free")
                }
                Err(ReplayEnd::NoMemory) => Err(AllocError),
            },
            Err(refusal) => format!(in alloc; "refused: {refusal}"),
        },
    }
}

fn count_records(alloc: Global, text: &[u8]) -> Result<u64, AllocError> {
    let mut reader = ReaderBuilder::new()
        .has_headers(false)
        .flexible(true)
        .from_reader(alloc, text);
    let mut row = ByteRecord::new(alloc);
    for records in 0..u64::MAX {
        match reader.read_byte_record(&mut row) {
            Ok(true) => {}
            Ok(false) => return Ok(records),
            Err(_) => return Err(AllocError),
        }
    }
    Ok(u64::MAX)
}
