ghost use Rattle.std.specs.Prelude.{◌≡◌, ◌++◌, IfOk, OnOk};
ghost use Rattle.std.specs.Option.{option_to_list};
ghost use Rattle.plan_text.specs.Steps.{Checks};
ghost use Rattle.atom_table.specs.Entries.{unit_in, units_in};
ghost use Rattle.atom_table.specs.Refusals.{unit_records_refusal, unit_refusal};

use crate::AtomRefusal;
use crate::named::NamedUnits;
use hyper_model::{MOST_UNITS, Unit};
use plan_text::Record;
use std::alloc::Global;

/// The units of the records, in order.
pub(crate) fn read_units(alloc: Global, records: &[Record]) -> Result<NamedUnits, AtomRefusal>
    ensures refusal { Checks AtomRefusal.NoMemory result (unit_records_refusal records.now) }
    ensures units { IfOk result (λ units. units ≡ units_in records.now) }
{
    let mut units = NamedUnits::of(alloc)?;
    for item in records {
        take_unit(alloc, item, &mut units)?;
    }
    Ok(units)
}

fn take_unit(alloc: Global, item: &Record, units: &mut NamedUnits) -> Result<(), AtomRefusal>
    ensures refusal { Checks AtomRefusal.NoMemory result (unit_refusal units.old item.now) }
    ensures taken { OnOk result (units.new ≡ units.old ++ option_to_list (unit_in item.now)) }
{
    let Record::UnitIs { at, name, rate } = item else {
        return Ok(())
    };
    if units.contains(name) {
        return Err(AtomRefusal::DuplicateUnit(u64::from(*at)));
    }
    if units.len() >= MOST_UNITS {
        return Err(AtomRefusal::TooManyUnits(u64::from(*at)));
    }
    let unit = Unit {
        name: name.copied(alloc)?,
        rate: *rate,
    };
    units.push(alloc, unit)?;
    Ok(())
}
