use crate::quoted::Quoted;
use crate::rows::Rows;
use crate::unsaid::Unsaid;
use plan_text::Row;
use std::alloc::{AllocError, Global};

/// An atom without a list.
pub(crate) fn list_missing(alloc: Global, rows: &Rows, atom: u64) -> Result<String, Unsaid> {
    let found = rows.nth(b"atom", atom)?;
    let at = found.at();
    let row = found.row();
    let name = Quoted(row.field(1));
    Ok(format!(in alloc;
        ": the atom {name} of {at} has no preference list. Add a record prefer,ATOM,UNIT,UNIT.. with all \
units in the order in which they are asked, or write rule,modified to have all lists made by distance."
    )?)
}

/// A list that lacks a unit or has one twice.
pub(crate) fn list_not_whole(alloc: Global, rows: &Rows, atom: u64) -> Result<String, Unsaid> {
    let found = rows.nth(b"atom", atom)?;
    let row = found.row();
    let name = Quoted(row.field(1));
    let missing = units_listed(alloc, rows, row.field(1), true)?;
    let twice = units_listed(alloc, rows, row.field(1), false)?;
    let lacks = if missing.is_empty() { "" } else { " It lacks " };
    let has = if twice.is_empty() { "" } else { " It has " };
    let missing_end = if missing.is_empty() { "" } else { "." };
    let twice_end = if twice.is_empty() {
        ""
    } else {
        " more than once."
    };
    Ok(format!(in alloc;
        ": the list of the atom {name} does not hold each unit once.{lacks}{missing}{missing_end}{has}\
{twice}{twice_end} The units that stand last may hardly ever go, but have to be there."
    )?)
}

/// The names of the units that an atom's list lacks, or has more than once.
fn units_listed(
    alloc: Global,
    rows: &Rows,
    atom: &[u8],
    is_lacking: bool,
) -> Result<String, AllocError> {
    let mut list = String::new(alloc);
    for item in rows.items() {
        if item.is_of(b"unit") {
            let row = item.row();
            let count = times_listed(rows, atom, row.field(1));
            if (is_lacking && count == 0) || (!is_lacking && count > 1) {
                let comma = if list.is_empty() { "" } else { ", " };
                let name = Quoted(row.field(1));
                write!(list, "{comma}{name}")?;
            }
        }
    }
    Ok(list)
}

/// How often the records of an atom's list name a unit.
fn times_listed(rows: &Rows, atom: &[u8], unit: &[u8]) -> usize {
    let mut count = 0usize;
    for item in rows.items() {
        if item.is_named(b"prefer", atom) || item.is_named(b"group", atom) {
            count = count.saturating_add(times_in(&item.row(), unit));
        }
    }
    count
}

fn times_in(row: &Row<'_>, unit: &[u8]) -> usize {
    (2..row.len())
        .filter(|place| row.field(*place) == unit)
        .count()
}

/// A list although the rule makes the lists.
pub(crate) fn list_not_asked(alloc: Global, rows: &Rows, record: u64) -> Result<String, Unsaid> {
    let found = rows.record(record)?;
    let at = found.at();
    let row = found.row();
    let atom = Quoted(row.field(1));
    let rule = rows.first_of(b"rule")?;
    let rule_at = rule.at();
    let rule_row = rule.row();
    let word = Quoted(rule_row.field(1));
    Ok(format!(in alloc;
        ", {at}: a list of the atom {atom} is given, but {rule_at} has the rule {word}, which makes all \
lists by distance. Take the lists out, or write rule,given."
    )?)
}

/// A second list of an atom.
pub(crate) fn list_twice(alloc: Global, rows: &Rows, record: u64) -> Result<String, Unsaid> {
    let found = rows.record(record)?;
    let at = found.at();
    let row = found.row();
    let name = row.field(1);
    let atom = Quoted(name);
    let first = rows
        .items()
        .iter()
        .find(|item| item.is_named(b"prefer", name) || item.is_named(b"group", name))
        .ok_or(Unsaid::Unknown)?
        .at();
    Ok(format!(in alloc;
        ", {at}: the atom {atom} has a list already, in {first}. Delete one. A list in several groups has \
only records group."
    )?)
}
