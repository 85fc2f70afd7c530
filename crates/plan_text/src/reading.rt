ghost use Rattle.std.specs.Prelude.{◌≡◌, ◌≤◌, ◌-◌, IfOk, length};
ghost use Rattle.plan_text.specs.Reading as spec;
ghost use Rattle.plan_text.specs.Reading.{names_at, reading_of};
ghost use Rattle.plan_text.specs.Steps.{Gives};

use crate::kind::{Kind, MOST_FIELDS, is_skipped, kind_of, may_have};
use crate::{
    AddedKind, MOST_RECORDS, Record, Row, TextRefusal, line_at, name_at, number_at, rule_at,
};
use hyper_model::{MOST_UNITS, Names};
use std::alloc::Global;

/// The record, if there is one, that a row with this number says. Its kind is one of version 1, or the one that is `added`.
///
/// A row with no field, or whose first field is `note`, gives none. A number beyond [`MOST_RECORDS`] is refused before
/// the row is looked at; then an unknown kind is refused, then a wrong number of fields, then the fields from left to right.
#[tactic(auto, unfolding(crate::specs::Reading::reading_of))]
pub fn read_row(
    alloc: Global,
    row: &Row<'_>,
    number: u32,
    added: Option<AddedKind>,
) -> Result<Option<Record>, TextRefusal>
    ensures reading { Gives TextRefusal.NoMemory (λ read. read) result (reading_of number added row.now) }
    ensures few { IfOk result (λ _. number ≤ MOST_RECORDS) }
{
    if number > MOST_RECORDS {
        return Err(TextRefusal::TooManyRecords(u64::from(number)));
    }
    if is_skipped(row) {
        return Ok(None);
    }
    let Some(kind) = kind_of(row.field(0), added) else {
        return Err(TextRefusal::UnknownKind(u64::from(number)))
    };
    if !may_have(kind, row.len()) {
        return Err(TextRefusal::FieldCount(u64::from(number)));
    }
    let record = record_of(alloc, row, number, kind)?;
    Ok(Some(record))
}

fn record_of(alloc: Global, row: &Row<'_>, at: u32, kind: Kind) -> Result<Record, TextRefusal>
    requires { length row.now ≤ MOST_FIELDS }
    ensures { Gives TextRefusal.NoMemory (λ read. read) result (spec.record_of kind at row.now) }
{
    match kind {
        Kind::Version => version_of(row, at),
        Kind::Line => line_of(row, at),
        Kind::Rule => rule_of(row, at),
        Kind::Period => period_of(row, at),
        Kind::Unit => unit_of(alloc, row, at),
        Kind::Atom => atom_of(alloc, row, at),
        Kind::Travel => travel_of(alloc, row, at),
        Kind::Located => located_of(alloc, row, at),
        Kind::Prefer => prefer_of(alloc, row, at),
        Kind::Group => group_of(alloc, row, at),
        Kind::Crews => crews_of(alloc, row, at),
    }
}

#[tactic(auto, unfolding(crate::specs::Reading::version_of))]
fn version_of(row: &Row<'_>, at: u32) -> Result<Record, TextRefusal>
    ensures { result ≡ spec.version_of at row.now }
{
    let number = number_at(row, at, 1, 0, 999_999_999)?;
    Ok(Record::Version { at, number })
}

#[tactic(auto, unfolding(crate::specs::Reading::line_of))]
fn line_of(row: &Row<'_>, at: u32) -> Result<Record, TextRefusal>
    ensures { result ≡ spec.line_of at row.now }
{
    let line = line_at(row, at, 1)?;
    Ok(Record::LineIs { at, line })
}

#[tactic(auto, unfolding(crate::specs::Reading::rule_of))]
fn rule_of(row: &Row<'_>, at: u32) -> Result<Record, TextRefusal>
    ensures { result ≡ spec.rule_of at row.now }
{
    let rule = rule_at(row, at, 1)?;
    Ok(Record::RuleIs { at, rule })
}

#[tactic(auto, unfolding(crate::specs::Reading::period_of))]
fn period_of(row: &Row<'_>, at: u32) -> Result<Record, TextRefusal>
    ensures { result ≡ spec.period_of at row.now }
{
    let seconds = number_at(row, at, 1, 1, 100_000_000)?;
    Ok(Record::Period { at, seconds })
}

#[tactic(auto, unfolding(crate::specs::Reading::unit_of))]
fn unit_of(alloc: Global, row: &Row<'_>, at: u32) -> Result<Record, TextRefusal>
    ensures { Gives TextRefusal.NoMemory (λ read. read) result (spec.unit_of at row.now) }
{
    let name = name_at(alloc, row, at, 1)?;
    let rate = number_at(row, at, 2, 1, 1_000_000)?;
    Ok(Record::UnitIs { at, name, rate })
}

#[tactic(auto, unfolding(crate::specs::Reading::atom_of))]
fn atom_of(alloc: Global, row: &Row<'_>, at: u32) -> Result<Record, TextRefusal>
    ensures { Gives TextRefusal.NoMemory (λ read. read) result (spec.atom_of at row.now) }
{
    let name = name_at(alloc, row, at, 1)?;
    let rate = number_at(row, at, 2, 0, 1_000_000)?;
    let x = number_at(row, at, 3, 0, 1_000_000)?;
    let y = number_at(row, at, 4, 0, 1_000_000)?;
    let unit = name_at(alloc, row, at, 5)?;
    Ok(Record::AtomIs {
        at,
        name,
        rate,
        x,
        y,
        unit,
    })
}

#[tactic(auto, unfolding(crate::specs::Reading::travel_of))]
fn travel_of(alloc: Global, row: &Row<'_>, at: u32) -> Result<Record, TextRefusal>
    ensures { Gives TextRefusal.NoMemory (λ read. read) result (spec.travel_of at row.now) }
{
    let from = name_at(alloc, row, at, 1)?;
    let to = name_at(alloc, row, at, 2)?;
    let seconds = number_at(row, at, 3, 0, 100_000)?;
    Ok(Record::Travel {
        at,
        from,
        to,
        seconds,
    })
}

#[tactic(auto, unfolding(crate::specs::Reading::located_of))]
fn located_of(alloc: Global, row: &Row<'_>, at: u32) -> Result<Record, TextRefusal>
    ensures { Gives TextRefusal.NoMemory (λ read. read) result (spec.located_of at row.now) }
{
    let unit = name_at(alloc, row, at, 1)?;
    let atom = name_at(alloc, row, at, 2)?;
    let thousandths = number_at(row, at, 3, 1, 1000)?;
    Ok(Record::Located {
        at,
        unit,
        atom,
        thousandths,
    })
}

#[tactic(auto, unfolding(crate::specs::Reading::prefer_of))]
fn prefer_of(alloc: Global, row: &Row<'_>, at: u32) -> Result<Record, TextRefusal>
    requires { length row.now ≤ MOST_FIELDS }
    ensures { Gives TextRefusal.NoMemory (λ read. read) result (spec.prefer_of at row.now) }
{
    let atom = name_at(alloc, row, at, 1)?;
    let units = names_of(alloc, row, at)?;
    Ok(Record::Prefer { at, atom, units })
}

#[tactic(auto, unfolding(crate::specs::Reading::group_of))]
fn group_of(alloc: Global, row: &Row<'_>, at: u32) -> Result<Record, TextRefusal>
    requires { length row.now ≤ MOST_FIELDS }
    ensures { Gives TextRefusal.NoMemory (λ read. read) result (spec.group_of at row.now) }
{
    let atom = name_at(alloc, row, at, 1)?;
    let units = names_of(alloc, row, at)?;
    Ok(Record::Group { at, atom, units })
}

#[tactic(auto, unfolding(crate::specs::Reading::crews_of))]
fn crews_of(alloc: Global, row: &Row<'_>, at: u32) -> Result<Record, TextRefusal>
    ensures { Gives TextRefusal.NoMemory (λ read. read) result (spec.crews_of at row.now) }
{
    let unit = name_at(alloc, row, at, 1)?;
    let count = number_at(row, at, 2, 1, 200)?;
    Ok(Record::Crews { at, unit, count })
}

// The names after the kind and the atom.
fn names_of(alloc: Global, row: &Row<'_>, at: u32) -> Result<Names, TextRefusal>
    requires { length row.now ≤ MOST_FIELDS }
    ensures { Gives TextRefusal.NoMemory (λ names. names) result (names_at (length row.now - 2) at row.now 2) }
{
    let Ok(mut names) = Names::reserved(alloc, MOST_UNITS) else {
        return Err(TextRefusal::NoMemory)
    };
    for place in 2..row.len() {
        let name = name_at(alloc, row, at, place)?;
        names.push(name);
    }
    Ok(names)
}
