use crate::grouped::Grouped;
use crate::quoted::Quoted;
use crate::rows::Rows;
use crate::unsaid::Unsaid;
use std::alloc::Global;

/// A second record of a unit at an atom.
pub(crate) fn located_twice(alloc: Global, rows: &Rows, record: u64) -> Result<String, Unsaid> {
    let found = rows.record(record)?;
    let at = found.at();
    let row = found.row();
    let first = rows.first_pair(b"at", row.field(1), row.field(2))?.at();
    let unit = Quoted(row.field(1));
    let atom = Quoted(row.field(2));
    Ok(format!(in alloc;
        ", {at}: the unit {unit} is at {atom} twice, first in {first}. Delete one, or add up the two."
    )?)
}

/// A unit whose thousandths are too few or too many.
pub(crate) fn thousandths_wrong(
    alloc: Global,
    rows: &Rows,
    unit: u64,
    sum: u64,
) -> Result<String, Unsaid> {
    let found = rows.nth(b"unit", unit)?;
    let row = found.row();
    let name = Quoted(row.field(1));
    let count = rows.count_named(b"at", row.field(1));
    let given = Grouped(sum);
    let advice = thousandths_advice(sum);
    Ok(format!(in alloc;
        ": the unit {name} is placed for {given} thousandths of its free time (records \
at,UNIT,ATOM,THOUSANDTHS: {count}), and not for 1,000. {advice}"
    )?)
}

fn thousandths_advice(sum: u64) -> &'static str {
    match sum {
        0 =>
            "Say where it stands while it is free: 1000 at one atom, or shares of 1000 at several.",
        1 => "Write 1000 for all of its time.",
        99..=101 => "If these are percent, multiply them by ten.",
        990..=1010 => "Change the largest of them so that the sum is 1000.",
        _ => "They are shares of 1000: change them so that the sum is 1000.",
    }
}
