use crate::arguments::Arguments;
use crate::quoted::Quoted;
use crate::rows::Rows;
use crate::unsaid::Unsaid;
use std::alloc::{AllocError, Global};

/// A plan that cannot be made.
pub(crate) fn not_made(alloc: Global, words: &[String]) -> Result<String, Unsaid> {
    let arguments = Arguments::of(alloc, words)?;
    let units = Quoted(arguments.plain_at(1).unwrap_or("").as_bytes());
    let number = Quoted(arguments.plain_at(2).unwrap_or("").as_bytes());
    Ok(format!(in alloc;
        ": no plan of {units} units is made from the number {number}. UNITS is from 2 to 10, and NUMBER from \
0 to 4,294,967,295."
    )?)
}

/// A line on which every call can wait, for a command that is not for it.
pub(crate) fn endless_line(
    alloc: Global,
    rows: &Rows,
    advice: &'static str,
) -> Result<String, Unsaid> {
    let at = rows.first_of(b"line")?.at();
    Ok(format!(in alloc;
        ", {at}: the line is infinite, and this command is for plans in which calls can be lost. {advice}"
    )?)
}

/// A plan with more units than the command takes.
pub(crate) fn too_many_units(
    alloc: Global,
    units: u64,
    most: &'static str,
) -> Result<String, Unsaid> {
    Ok(format!(in alloc;
        ": the plan has {units} units, and this command takes at most {most}. Leave out units that hardly \
help the others."
    )?)
}

/// A group of several units, for a command that takes none.
pub(crate) fn shared_group(alloc: Global, rows: &Rows, atom: u64) -> Result<String, Unsaid> {
    let found = rows.nth(b"atom", atom)?;
    let row = found.row();
    let name = Quoted(row.field(1));
    let first = rows.first_named(b"group", row.field(1))?.at();
    Ok(format!(in alloc;
        ": the list of the atom {name} has a group of several units (it begins in {first}), and calls for two \
units are sent by lists without groups. Write prefer,ATOM,UNIT,UNIT.. in their place."
    )?)
}

/// A unit that the plan does not have.
pub(crate) fn unknown_unit(alloc: Global, rows: &Rows, words: &[String]) -> Result<String, Unsaid> {
    let arguments = Arguments::of(alloc, words)?;
    let asked = arguments.plain_at(2).unwrap_or("");
    let name = Quoted(asked.as_bytes());
    let all = unit_names(alloc, rows)?;
    match rows.nearest(b"unit", asked.as_bytes()) {
        Some(near) => {
            let row = near.row();
            let other = Quoted(row.field(1));
            Ok(format!(in alloc;
                ": no unit has the name {name}. The nearest name is {other}: capitals, blanks and accents count."
            )?)
        }
        None => Ok(format!(in alloc; ": no unit has the name {name}. The units are {all}.")?),
    }
}

fn unit_names(alloc: Global, rows: &Rows) -> Result<String, AllocError> {
    let mut names = String::new(alloc);
    for item in rows.items() {
        if item.is_of(b"unit") {
            let row = item.row();
            let comma = if names.is_empty() { "" } else { ", " };
            let name = Quoted(row.field(1));
            write!(names, "{comma}{name}")?;
        }
    }
    Ok(names)
}
