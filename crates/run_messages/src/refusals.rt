use crate::ended::Ended;
use crate::kept::Kept;
use crate::quoted::FileName;
use crate::rows::Rows;
use crate::unsaid::Unsaid;
use crate::{
    command_faults, day_faults, fleet_faults, form_faults, list_faults, location_faults,
    name_faults, setting_faults, study_faults, travel_faults,
};
use std::alloc::{AllocError, Global};
use text_lines::RefusalCode;

/// What is said of a file with more bytes than a text may have.
const TOO_LONG: &str =
    ": the file has more than 4,194,304 bytes. Is it the file that was meant? Take out what the program \
does not need.";

/// The message of a refusal, after which nothing else is said.
pub(crate) fn refusal(
    alloc: Global,
    ended: &Ended<'_>,
    kept: &Kept,
    code: RefusalCode,
) -> Result<String, AllocError> {
    let number = code.number;
    let name = match kept.last_name() {
        Some(name) => format!(in alloc; "{shown}", shown = FileName(name))?,
        None => String::from_str(alloc, "make")?,
    };
    match fault(alloc, ended, kept, code) {
        Ok(fault) => format!(in alloc; "hypercube: {name}{fault} (refusal {number})\n"),
        Err(Unsaid::Unknown) => {
            format!(in alloc;
                "hypercube: {name} is refused: docs/report.md says why. (refusal {number})\n"
            )
        }
        Err(Unsaid::NoMemory) => Err(AllocError),
    }
}

fn fault(
    alloc: Global,
    ended: &Ended<'_>,
    kept: &Kept,
    code: RefusalCode,
) -> Result<String, Unsaid> {
    match code.number {
        2 | 63 | 90 => Ok(String::from_str(alloc, TOO_LONG)?),
        60..=62 => study_fault(alloc, kept, code),
        70 => command_faults::not_made(alloc, ended.arguments),
        _ => text_fault(alloc, ended, kept, code),
    }
}

fn study_fault(alloc: Global, kept: &Kept, code: RefusalCode) -> Result<String, Unsaid> {
    let text = kept.first_text().ok_or(Unsaid::Unknown)?;
    let [first, _] = code.arguments;
    match code.number {
        60 => study_faults::no_study(alloc, text),
        61 => study_faults::unknown_measure(alloc, text, first.unwrap_or(0)),
        _ => study_faults::plan_count(alloc, first.unwrap_or(0)),
    }
}

/// What is wrong with the text that was read last, record by record.
fn text_fault(
    alloc: Global,
    ended: &Ended<'_>,
    kept: &Kept,
    code: RefusalCode,
) -> Result<String, Unsaid> {
    let rows = Rows::of(alloc, kept.last_text().ok_or(Unsaid::Unknown)?)?;
    let [first, second] = code.arguments;
    let pair = (first.unwrap_or(0), second.unwrap_or(0));
    match code.number {
        0..=9 => form_fault(alloc, ended, &rows, code.number, pair),
        10..=19 => name_fault(alloc, &rows, code.number, pair),
        20..=43 => table_fault(alloc, &rows, code.number, pair),
        50..=52 => setting_fault(alloc, ended, &rows, code.number, pair),
        80..=85 => command_fault(alloc, ended, &rows, code.number, pair.0),
        100..=103 => fleet_fault(alloc, &rows, code.number, pair.0),
        _ => day_fault(alloc, kept, &rows, code.number, pair.0),
    }
}

fn form_fault(
    alloc: Global,
    ended: &Ended<'_>,
    rows: &Rows,
    number: u32,
    (first, second): (u64, u64),
) -> Result<String, Unsaid> {
    match number {
        1 => form_faults::not_utf8(alloc, rows, first),
        3 => {
            let is_fleet = fleet_faults::is_fleet(alloc, ended.arguments)?;
            form_faults::unknown_kind(alloc, rows, first, is_fleet)
        }
        4 => form_faults::field_count(alloc, rows, first),
        5 => form_faults::bad_number(alloc, rows, first, second),
        6 => form_faults::bad_name(alloc, rows, first, second),
        7 => form_faults::too_many_records(alloc, rows, first),
        _ => Err(Unsaid::Unknown),
    }
}

fn name_fault(
    alloc: Global,
    rows: &Rows,
    number: u32,
    (first, second): (u64, u64),
) -> Result<String, Unsaid> {
    match number {
        10 => name_faults::named_twice(alloc, rows, first, "atom"),
        11 => name_faults::named_twice(alloc, rows, first, "unit"),
        12 => name_faults::too_many_atoms(alloc, rows, first),
        13 => name_faults::too_many_units(alloc, rows, first),
        14 => name_faults::unknown_name(alloc, rows, first, second),
        15 => name_faults::no_units(alloc, rows),
        16 => name_faults::no_atoms(alloc),
        17 => name_faults::no_calls(alloc, rows),
        18 => name_faults::rates_above(alloc, "call", first),
        19 => name_faults::rates_above(alloc, "service", first),
        _ => Err(Unsaid::Unknown),
    }
}

fn table_fault(
    alloc: Global,
    rows: &Rows,
    number: u32,
    (first, second): (u64, u64),
) -> Result<String, Unsaid> {
    match number {
        20 => travel_faults::travel_twice(alloc, rows, first),
        21 => travel_faults::travel_missing(alloc, rows),
        30 => location_faults::located_twice(alloc, rows, first),
        31 => location_faults::thousandths_wrong(alloc, rows, first, second),
        40 => list_faults::list_missing(alloc, rows, first),
        41 => list_faults::list_not_whole(alloc, rows, first),
        42 => list_faults::list_not_asked(alloc, rows, first),
        43 => list_faults::list_twice(alloc, rows, first),
        _ => Err(Unsaid::Unknown),
    }
}

fn setting_fault(
    alloc: Global,
    ended: &Ended<'_>,
    rows: &Rows,
    number: u32,
    pair: (u64, u64),
) -> Result<String, Unsaid> {
    let is_fleet = fleet_faults::is_fleet(alloc, ended.arguments)?;
    match number {
        50 => setting_faults::unknown_version(alloc, rows, pair.0, is_fleet),
        51 => setting_faults::setting_twice(alloc, rows, pair.0),
        _ => setting_faults::not_stable(alloc, rows, pair, is_fleet),
    }
}

fn fleet_fault(alloc: Global, rows: &Rows, number: u32, first: u64) -> Result<String, Unsaid> {
    match number {
        100 => fleet_faults::crews_twice(alloc, rows, first),
        101 => fleet_faults::too_many_crews(alloc, first),
        102 => fleet_faults::too_many_states(alloc, first),
        _ => fleet_faults::too_much_service(alloc, first),
    }
}

fn command_fault(
    alloc: Global,
    ended: &Ended<'_>,
    rows: &Rows,
    number: u32,
    first: u64,
) -> Result<String, Unsaid> {
    match number {
        80 => command_faults::endless_line(alloc, rows, "Write solve, or take that record out."),
        81 => command_faults::too_many_units(alloc, first, "eleven"),
        82 => command_faults::endless_line(alloc, rows, "Take that record out."),
        83 => command_faults::too_many_units(alloc, first, "ten"),
        84 => command_faults::shared_group(alloc, rows, first),
        _ => command_faults::unknown_unit(alloc, rows, ended.arguments),
    }
}

fn day_fault(
    alloc: Global,
    kept: &Kept,
    rows: &Rows,
    number: u32,
    first: u64,
) -> Result<String, Unsaid> {
    match number {
        91 => form_faults::too_many_records(alloc, rows, first),
        92 => day_faults::no_day_record(alloc, rows, first),
        93 => {
            let plan = Rows::of(alloc, kept.first_text().ok_or(Unsaid::Unknown)?)?;
            day_faults::unknown_day_name(alloc, &plan, rows, first)
        }
        94 => day_faults::out_of_order(alloc, rows, first),
        95 => day_faults::not_busy(alloc, rows, first),
        _ => Err(Unsaid::Unknown),
    }
}
