use crate::arguments::Arguments;
use crate::grouped::Grouped;
use crate::quoted::Quoted;
use crate::rows::Rows;
use crate::unsaid::Unsaid;
use std::alloc::{AllocError, Global};

/// Whether these arguments ask for a fleet.
pub(crate) fn is_fleet(alloc: Global, words: &[String]) -> Result<bool, AllocError> {
    let arguments = Arguments::of(alloc, words)?;
    Ok(arguments.plain_at(0) == Some("fleet"))
}

/// A second record of a station's crews.
pub(crate) fn crews_twice(alloc: Global, rows: &Rows, record: u64) -> Result<String, Unsaid> {
    let found = rows.record(record)?;
    let at = found.at();
    let row = found.row();
    let first = rows.first_named(b"crews", row.field(1))?.at();
    let name = Quoted(row.field(1));
    Ok(format!(in alloc;
        ", {at}: the crews of the station {name} are given twice, first in {first}. Delete one."
    )?)
}

/// More crews than a fleet may have.
pub(crate) fn too_many_crews(alloc: Global, crews: u64) -> Result<String, Unsaid> {
    let crews = Grouped(crews);
    Ok(format!(in alloc;
        ": the fleet has {crews} crews, and may have 200. Make a fleet of a part of the region."
    )?)
}

/// More states than a fleet may have.
pub(crate) fn too_many_states(alloc: Global, states: u64) -> Result<String, Unsaid> {
    let states = Grouped(states);
    Ok(format!(in alloc;
        ": the fleet has {states} states, and may have 65,536: multiply, over the stations, their crews and one. \
Join stations that lie close together, or take crews away where they are hardly busy."
    )?)
}

/// Service rates that are too large in all.
pub(crate) fn too_much_service(alloc: Global, sum: u64) -> Result<String, Unsaid> {
    let sum = Grouped(sum);
    Ok(format!(in alloc;
        ": the service rates of all crews come to {sum} in all, more than 1,000,000. Choose a shorter period, \
and divide all rates of calls and of service."
    )?)
}
