use crate::kept::Kept;
use crate::quoted::{FileName, Quoted};
use crate::rows::Rows;
use crate::unsaid::Unsaid;
use fleet_measures::FleetMeasure;
use hyper_model::{Measure, Subject, scale};
use std::alloc::Global;
use text_lines::push_number;

/// A measure as it is spoken of.
#[derive(Clone, Copy)]
struct Spoken {
    word: &'static str,
    subject: Subject,
    is_time: bool,
    /// What a unit of the text is.
    thing: &'static str,
    /// What makes the ends narrower.
    advice: &'static str,
}

/// A measure whose ends lie too far apart.
pub(crate) fn too_wide(
    alloc: Global,
    kept: &Kept,
    place: u32,
    measure: Measure,
    ends: (u64, u64),
) -> Result<String, Unsaid> {
    let spoken = Spoken {
        word: measure.word(),
        subject: measure.subject(),
        is_time: measure.is_time(),
        thing: "unit",
        advice: "Fewer units, or fewer calls for each service, make the ends narrower.",
    };
    wide_text(alloc, kept, place, spoken, ends)
}

/// The same of a measure of a fleet, which stands at place 1.
pub(crate) fn fleet_too_wide(
    alloc: Global,
    kept: &Kept,
    measure: FleetMeasure,
    ends: (u64, u64),
) -> Result<String, Unsaid> {
    let (word, subject, is_time) = match measure {
        FleetMeasure::Of(measure) => (measure.word(), measure.subject(), measure.is_time()),
        FleetMeasure::Full(station) => ("full", Subject::Unit(station), false),
    };
    let spoken = Spoken {
        word,
        subject,
        is_time,
        thing: "station",
        advice: "Fewer crews, or fewer calls for each service, make the ends narrower.",
    };
    wide_text(alloc, kept, 1, spoken, ends)
}

fn wide_text(
    alloc: Global,
    kept: &Kept,
    place: u32,
    spoken: Spoken,
    ends: (u64, u64),
) -> Result<String, Unsaid> {
    let name = FileName(kept.name_at(place).ok_or(Unsaid::Unknown)?);
    let rows = Rows::of(alloc, kept.first_text().ok_or(Unsaid::Unknown)?)?;
    let Spoken {
        word,
        subject,
        is_time,
        thing,
        advice,
    } = spoken;
    let about = subject_text(alloc, &rows, subject, thing)?;
    let low = decimal(alloc, ends.0, is_time)?;
    let high = decimal(alloc, ends.1, is_time)?;
    let apart = decimal(alloc, ends.1.saturating_sub(ends.0), is_time)?;
    let option = if is_time { "--time-width" } else { "--width" };
    Ok(format!(in alloc;
        "hypercube: {name}: the measure {word}{about} lies between {low} and {high}, which are {apart} apart, \
and {option} asks for less. Ask for a greater width or leave {option} out. {advice}\n"
    )?)
}

/// A number of thousandths of a second, or of millionths.
fn decimal(alloc: Global, value: u64, is_time: bool) -> Result<String, Unsaid> {
    let mut digits = Vec::new(alloc);
    if is_time {
        push_number(&mut digits, value, 1000)?;
    } else {
        push_number(&mut digits, value, 1_000_000)?;
    }
    String::from_utf8(digits).map_err(|_| Unsaid::Unknown)
}

/// What a measure speaks of, by names.
fn subject_text(
    alloc: Global,
    rows: &Rows,
    subject: Subject,
    thing: &'static str,
) -> Result<String, Unsaid> {
    match subject {
        Subject::Region => Ok(String::new(alloc)),
        Subject::Unit(unit) => unit_text(alloc, rows, unit, thing),
        Subject::Atom(atom) => named(alloc, rows, " of the atom", b"atom", u64::from(atom)),
        Subject::District(unit) => {
            named(alloc, rows, " of the district of", b"unit", u64::from(unit))
        }
        Subject::UnitAndAtom(unit, atom) => {
            let mut text = unit_text(alloc, rows, unit, thing)?;
            let rest = named(alloc, rows, " at the atom", b"atom", u64::from(atom))?;
            text.push_str(rest.as_str())?;
            Ok(text)
        }
    }
}

fn unit_text(alloc: Global, rows: &Rows, unit: u8, thing: &'static str) -> Result<String, Unsaid> {
    let name = named(alloc, rows, "", b"unit", u64::from(unit))?;
    Ok(format!(in alloc; " of the {thing}{name}")?)
}

/// Some words, and the name of a record of this kind, by its number among those of its kind, counted from 0.
fn named(
    alloc: Global,
    rows: &Rows,
    front: &'static str,
    kind: &[u8],
    place: u64,
) -> Result<String, Unsaid> {
    let found = rows.nth(kind, place.saturating_add(1))?;
    let row = found.row();
    let name = Quoted(row.field(1));
    Ok(format!(in alloc; "{front} {name}")?)
}
