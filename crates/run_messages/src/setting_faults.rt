use crate::grouped::Grouped;
use crate::quoted::Quoted;
use crate::rows::Rows;
use crate::unsaid::Unsaid;
use std::alloc::Global;

/// A version that is not known.
pub(crate) fn unknown_version(
    alloc: Global,
    rows: &Rows,
    record: u64,
    is_fleet: bool,
) -> Result<String, Unsaid> {
    let found = rows.record(record)?;
    let at = found.at();
    let row = found.row();
    let version = Quoted(row.field(1));
    let (text, advice) = version_words(is_fleet);
    Ok(format!(in alloc;
        ", {at}: there is no version {version} of {text}. Write {advice} the record may be left out."
    )?)
}

/// What the text is, and what its versions are for.
fn version_words(is_fleet: bool) -> (&'static str, &'static str) {
    if is_fleet {
        (
            "a fleet",
            "version,3 to give stations several crews; with one crew at each station",
        )
    } else {
        ("a plan", "version,2 to use groups; without groups")
    }
}

/// A second record of a setting.
pub(crate) fn setting_twice(alloc: Global, rows: &Rows, record: u64) -> Result<String, Unsaid> {
    let found = rows.record(record)?;
    let at = found.at();
    let row = found.row();
    let first = rows.first_of(row.field(0))?;
    let first_at = first.at();
    let first_row = first.row();
    let kind = Quoted(row.field(0));
    let value = Quoted(row.field(1));
    let first_value = Quoted(first_row.field(1));
    Ok(format!(in alloc;
        ", {at}: {kind} is set twice, to {value} and first, in {first_at}, to {first_value}. Delete one."
    )?)
}

/// A line that would grow without end.
pub(crate) fn not_stable(
    alloc: Global,
    rows: &Rows,
    (calls, service): (u64, u64),
    is_fleet: bool,
) -> Result<String, Unsaid> {
    let at = rows.first_of(b"line")?.at();
    let calls = Grouped(calls);
    let service = Grouped(service);
    let units = if is_fleet { "crews" } else { "units" };
    Ok(format!(in alloc;
        ": {calls} calls come in a period, and all {units} together can serve {service}. With the infinite \
line of {at} ever more calls would wait. Add {units}, check that all rates are of one period, or write line,zero to have calls \
lost that find all {units} busy."
    )?)
}
