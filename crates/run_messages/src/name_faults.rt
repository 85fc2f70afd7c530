use crate::forms::{Field, form_of};
use crate::grouped::Grouped;
use crate::quoted::Quoted;
use crate::rows::Rows;
use crate::unsaid::Unsaid;
use std::alloc::Global;

/// A second record of a unit or an atom.
pub(crate) fn named_twice(
    alloc: Global,
    rows: &Rows,
    record: u64,
    kind: &'static str,
) -> Result<String, Unsaid> {
    let found = rows.record(record)?;
    let at = found.at();
    let row = found.row();
    let first = rows.first_named(kind.as_bytes(), row.field(1))?.at();
    let name = Quoted(row.field(1));
    Ok(format!(in alloc;
        ", {at}: the {kind} {name} has two records, and the first is {first}. Delete one, or give one another name."
    )?)
}

/// More atoms than a plan may have.
pub(crate) fn too_many_atoms(alloc: Global, rows: &Rows, record: u64) -> Result<String, Unsaid> {
    let found = rows.record(record)?;
    let at = found.at();
    let row = found.row();
    let name = Quoted(row.field(1));
    let count = rows.count_of(b"atom");
    Ok(format!(in alloc;
        ", {at}: {name} is the 201st of {count} atoms, and a plan has at most 200. Join atoms that lie \
together, and add up their call rates."
    )?)
}

/// More units than a plan may have.
pub(crate) fn too_many_units(alloc: Global, rows: &Rows, record: u64) -> Result<String, Unsaid> {
    let found = rows.record(record)?;
    let at = found.at();
    let row = found.row();
    let name = Quoted(row.field(1));
    let count = rows.count_of(b"unit");
    Ok(format!(in alloc;
        ", {at}: {name} is the 13th of {count} units, and a plan has at most 12. Leave out units that hardly \
help each other, in a plan of their own."
    )?)
}

/// A name that no unit or no atom has.
pub(crate) fn unknown_name(
    alloc: Global,
    rows: &Rows,
    record: u64,
    number: u64,
) -> Result<String, Unsaid> {
    let found = rows.record(record)?;
    let at = found.at();
    let row = found.row();
    let form = form_of(row.field(0)).ok_or(Unsaid::Unknown)?;
    let Some(Field::Name(thing)) = form.field(number) else {
        return Err(Unsaid::Unknown)
    };
    let bytes = row.field(number.saturating_sub(1).min(row.len() as u64) as usize);
    let name = Quoted(bytes);
    let Some(near) = rows.nearest(thing.as_bytes(), bytes) else {
        return Ok(format!(in alloc;
            ", {at}, field {number}: no {thing} has the name {name}. Add a record for it, or name another."
        )?)
    };
    let near_row = near.row();
    let other = Quoted(near_row.field(1));
    let other_at = near.at();
    Ok(format!(in alloc;
        ", {at}, field {number}: no {thing} has the name {name}. The nearest name is {other}, of {other_at}: \
capitals, blanks and accents count."
    )?)
}

/// A plan without units.
pub(crate) fn no_units(alloc: Global, rows: &Rows) -> Result<String, Unsaid> {
    if rows.items().is_empty() {
        return Ok(format!(in alloc; ": the text has no record. Is it the file that was meant?")?);
    }
    Ok(format!(in alloc; ": there is no unit. Add a record unit,UNIT,RATE for each unit.")?)
}

/// A plan without atoms.
pub(crate) fn no_atoms(alloc: Global) -> Result<String, Unsaid> {
    Ok(format!(in alloc;
        ": there is no atom. Add a record atom,ATOM,RATE,X,Y,UNIT for each atom, a station without calls \
too."
    )?)
}

/// A plan without calls.
pub(crate) fn no_calls(alloc: Global, rows: &Rows) -> Result<String, Unsaid> {
    let count = rows.count_of(b"atom");
    Ok(format!(in alloc;
        ": the call rates of all atoms ({count}) are 0. Write the calls of a period in the third field of \
the atoms' records. If they were rounded to 0, choose a longer period."
    )?)
}

/// Rates that are too large in all.
pub(crate) fn rates_above(alloc: Global, what: &'static str, sum: u64) -> Result<String, Unsaid> {
    let sum = Grouped(sum);
    Ok(format!(in alloc;
        ": the {what} rates of the plan come to {sum} in all, more than 1,000,000. Choose a shorter period, \
and divide all rates of calls and of service."
    )?)
}
