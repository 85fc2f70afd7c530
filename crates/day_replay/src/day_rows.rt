ghost use Rattle.std.specs.Prelude.{◌≡◌, ◌≤◌, List, [], length, Option, IfOk};
ghost use Rattle.std.specs.Option.{option_or, option_map, unwrap_or};
ghost use Rattle.hyper_model.specs.declared.parts.PlanParts.{PlanParts};
ghost use Rattle.plan_text.specs.Rows.{rows_of};
ghost use Rattle.plan_text.specs.Steps.{Checks, Gives, first_over};
ghost use Rattle.plan_text.specs.declared.TheConstants.{MOST_RECORDS};
ghost use Rattle.day_replay.specs.Days.{IsDayOf};
ghost use Rattle.day_replay.specs.DayRows as spec;
ghost use Rattle.day_replay.specs.DayRows.{day_of, form_refusal, is_call_row, is_free_row, name_refusal, names_of, numbered_refusal, records_in, row_refusal};
ghost use Rattle.day_replay.specs.declared.day_list.DayRecord.{DayRecord};

use crate::day_names::DayNames;
use crate::{Day, DayRecord, DayRefusal, MOST_SECOND};
use csv::ByteRecord;
use hyper_model::Plan;
use plan_text::{MOST_RECORDS, MOST_TEXT_BYTES, Row, is_skipped, number_at, row_reader};
use std::alloc::Global;

/// How many fields a record has: its kind, its second, and a name.
const FIELDS: usize = 3;

/// The day of a plan that a text records.
///
/// Each row says `call`, a second and an atom's name, or `free`, a second and a unit's name. Rows without a field and
/// notes are passed over, and keep their number. A text of more than [`MOST_TEXT_BYTES`] is refused before it is read.
/// Else the first row that fails is refused: the first beyond [`MOST_RECORDS`]; one of another form; one that names no
/// atom or no unit of the plan; one at an earlier second than a row before it. No row is read after one that is refused,
/// and only one is in memory at a time.
#[tactic(auto, unfolding(crate::specs::DayRows::day_of))]
pub fn read_day(alloc: Global, plan: &Plan, bytes: &[u8]) -> Result<Day, DayRefusal>
    ensures day { Gives DayRefusal.NoMemory (λ day. day) result (day_of plan.now bytes.now) }
    ensures form { IfOk result (λ day. IsDayOf plan.now day) }
{
    if bytes.len() > MOST_TEXT_BYTES {
        return Err(DayRefusal::DayTooLong(bytes.len() as u64));
    }
    let names = DayNames::of(alloc, plan)?;
    read_rows(alloc, &names, bytes)
}

fn read_rows(alloc: Global, names: &DayNames, bytes: &[u8]) -> Result<Day, DayRefusal>
    ensures refusal { Checks DayRefusal.NoMemory result (first_over (row_refusal names.now) [] (rows_of bytes.now)) }
    ensures records { IfOk result (λ day. day ≡ records_in names.now (rows_of bytes.now)) }
    ensures form { IfOk result (λ day. (p : PlanParts) → names.now ≡ names_of p → IsDayOf p day) }
{
    let mut reader = row_reader(alloc, bytes);
    let mut source = ByteRecord::new(alloc);
    let mut day = Day::new(alloc);
    let mut latest = 0;
    let mut number = 0;
    'rows: loop {
        let Ok(more) = reader.read_byte_record(&mut source) else {
            return Err(DayRefusal::NoMemory)
        };
        if !more {
            return Ok(day);
        }
        number += 1;
        let row = Row::of(&source);
        let read = read_row(alloc, names, &row, number, latest)?;
        latest = second_after(latest, read);
        day.keep(read)?;
    }
}

/// The second of a record, if there is one, else that of those before it.
fn second_after(latest: u32, read: Option<DayRecord>) -> u32
    ensures { result ≡ unwrap_or (option_map (λ (r : DayRecord). r.second) read) latest }
{
    match read {
        Some(record) => record.second,
        None => latest,
    }
}

/// The record, if there is one, that a row with this number says, after records of which the latest is at this second.
fn read_row(
    alloc: Global,
    names: &DayNames,
    row: &Row<'_>,
    number: u32,
    latest: u32,
) -> Result<Option<DayRecord>, DayRefusal>
    ensures refusal { Checks DayRefusal.NoMemory result (numbered_refusal names.now latest number row.now) }
    ensures said { IfOk result (λ read. read ≡ spec.record_of names.now number row.now) }
    ensures few { IfOk result (λ _. number ≤ MOST_RECORDS) }
{
    if number > MOST_RECORDS {
        return Err(DayRefusal::DayTooMany(u64::from(number)));
    }
    if is_skipped(row) {
        return Ok(None);
    }
    let record = record_of(alloc, names, row, number)?;
    if record.second < latest {
        return Err(DayRefusal::DayOrder(u64::from(number)));
    }
    Ok(Some(record))
}

fn record_of(
    alloc: Global,
    names: &DayNames,
    row: &Row<'_>,
    number: u32,
) -> Result<DayRecord, DayRefusal>
    ensures refusal { Checks DayRefusal.NoMemory result
        (option_or (form_refusal number row.now) (name_refusal names.now number row.now)) }
    ensures said { IfOk result (λ said. said ≡ spec.said_record names.now number row.now) }
{
    let free = is_free(row);
    let Ok(second) = number_at(row, 0, 1, 0, MOST_SECOND) else {
        return Err(DayRefusal::DayRecord(u64::from(number)))
    };
    if !(free || is_call(row)) || row.len() != FIELDS {
        return Err(DayRefusal::DayRecord(u64::from(number)));
    }
    let Some(who) = names.place_of(alloc, free, row.field(2))? else {
        return Err(DayRefusal::DayName(u64::from(number)))
    };
    Ok(DayRecord {
        at: number,
        second,
        free,
        who,
    })
}

fn is_free(row: &Row<'_>) -> bool
    ensures { result ≡ is_free_row row.now }
{
    row.field(0) == b"free".as_slice()
}

fn is_call(row: &Row<'_>) -> bool
    ensures { result ≡ is_call_row row.now }
{
    row.field(0) == b"call".as_slice()
}
