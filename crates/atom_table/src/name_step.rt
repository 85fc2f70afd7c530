ghost use Rattle.plan_text.specs.Steps.{Refuses};
ghost use Rattle.atom_table.specs.Refusals.{name_refusal, names_refusal, unknown, unknown_from};

use crate::AtomRefusal;
use crate::name_index::NameIndex;
use hyper_model::{Name, Names};
use plan_text::Record;

/// The number of the first field of a list's units.
const FIRST_LISTED: u64 = 3;

/// Refuses a name of a unit or of an atom that is not among those of all units or of all atoms.
pub(crate) fn check_names(
    units: &NameIndex,
    atoms: &NameIndex,
    records: &[Record],
) -> Result<(), AtomRefusal>
    ensures { Refuses result (names_refusal units.now atoms.now records.now) }
{
    for item in records {
        check_record(units, atoms, item)?;
    }
    Ok(())
}

fn check_record(units: &NameIndex, atoms: &NameIndex, item: &Record) -> Result<(), AtomRefusal>
    ensures { Refuses result (name_refusal units.now atoms.now item.now) }
{
    match item {
        Record::AtomIs { at, unit, .. } => check_name(units, *at, 6, unit),
        Record::Travel { at, from, to, .. } => {
            check_name(atoms, *at, 2, from)?;
            check_name(atoms, *at, 3, to)
        }
        Record::Located { at, unit, atom, .. } => {
            check_name(units, *at, 2, unit)?;
            check_name(atoms, *at, 3, atom)
        }
        Record::Prefer {
            at,
            atom,
            units: list,
        }
        | Record::Group {
            at,
            atom,
            units: list,
        } => {
            check_name(atoms, *at, 2, atom)?;
            check_list(units, *at, list)
        }
        Record::Version { .. }
        | Record::LineIs { .. }
        | Record::RuleIs { .. }
        | Record::Period { .. }
        | Record::UnitIs { .. }
        | Record::Crews { .. } => Ok(()),
    }
}

fn check_list(units: &NameIndex, at: u32, list: &Names) -> Result<(), AtomRefusal>
    ensures { Refuses result (unknown_from units.now at 3 list.now) }
{
    for place in 0..list.len() {
        check_name(units, at, place as u64 + FIRST_LISTED, list.get(place))?;
    }
    Ok(())
}

fn check_name(names: &NameIndex, at: u32, field: u64, name: &Name) -> Result<(), AtomRefusal>
    ensures { Refuses result (unknown names.now at field name.now) }
{
    if names.contains(name) {
        Ok(())
    } else {
        Err(AtomRefusal::UnknownName(u64::from(at), field))
    }
}
