use crate::quoted::Quoted;
use crate::rows::Rows;
use crate::unsaid::Unsaid;
use plan_text::Row;
use std::alloc::Global;

/// A record that is no call and no end of a service.
pub(crate) fn no_day_record(alloc: Global, rows: &Rows, record: u64) -> Result<String, Unsaid> {
    let found = rows.record(record)?;
    let at = found.at();
    let row = found.row();
    let word = Quoted(row.field(0));
    let advice = record_advice(&row);
    Ok(format!(in alloc;
        ", {at}: the record that begins with {word} is neither call,SECOND,ATOM nor free,SECOND,UNIT. \
{advice}"
    )?)
}

fn record_advice(row: &Row<'_>) -> &'static str {
    let kind = row.field(0);
    if kind.contains(&b';') || kind.contains(&b'\t') {
        "Fields are separated by commas: save the file with them."
    } else if kind != b"call".as_slice() && kind != b"free".as_slice() {
        "The kind is in small letters. If this is a row of headings, write note, in front of it."
    } else if row.len() != 3 {
        "It has three fields, and a comma in a name separates fields."
    } else {
        "The second is a whole number of one to nine digits, counted from midnight for instance, and not a time with colons."
    }
}

/// A name that the plan does not have.
pub(crate) fn unknown_day_name(
    alloc: Global,
    plan: &Rows,
    rows: &Rows,
    record: u64,
) -> Result<String, Unsaid> {
    let found = rows.record(record)?;
    let at = found.at();
    let row = found.row();
    let is_call = row.field(0) == b"call".as_slice();
    let thing = if is_call { "atom" } else { "unit" };
    let name = Quoted(row.field(2));
    match plan.nearest(thing.as_bytes(), row.field(2)) {
        Some(near) => {
            let near_row = near.row();
            let other = Quoted(near_row.field(1));
            Ok(format!(in alloc;
                ", {at}: no {thing} of the plan has the name {name}. The nearest name is {other}: capitals, \
blanks and accents count."
            )?)
        }
        None => Ok(format!(in alloc;
            ", {at}: no {thing} of the plan has the name {name}. Add it to the plan, or take the record out."
        )?),
    }
}

/// A record that is earlier than the one before it.
pub(crate) fn out_of_order(alloc: Global, rows: &Rows, record: u64) -> Result<String, Unsaid> {
    let found = rows.record(record)?;
    let at = found.at();
    let row = found.row();
    let before = rows
        .items()
        .iter()
        .rev()
        .find(|item| u64::from(item.at().number) < record)
        .ok_or(Unsaid::Unknown)?;
    let before_at = before.at();
    let before_row = before.row();
    let second = Quoted(row.field(1));
    let earlier = Quoted(before_row.field(1));
    Ok(format!(in alloc;
        ", {at}: the second {second} is before the second {earlier} of {before_at}. Sort the records by \
their seconds; after midnight go on counting from 86400."
    )?)
}

/// A unit that is freed and was not busy.
pub(crate) fn not_busy(alloc: Global, rows: &Rows, record: u64) -> Result<String, Unsaid> {
    let found = rows.record(record)?;
    let at = found.at();
    let row = found.row();
    let unit = Quoted(row.field(2));
    let second = Quoted(row.field(1));
    Ok(format!(in alloc;
        ", {at}: the unit {unit} is free again in second {second}, but by the plan's lists no call had been sent \
to it, or it was free again before. The day may begin while units are busy, or the unit that really went was another: take \
the record out, or begin the day later."
    )?)
}
