ghost use Rattle.std.specs.Prelude.{◌≡◌, ◌++◌, IfOk, OnOk};
ghost use Rattle.std.specs.Option.{option_to_list};
ghost use Rattle.plan_text.specs.Steps.{Checks};
ghost use Rattle.atom_table.specs.Entries.{atom_in, atoms_in};
ghost use Rattle.atom_table.specs.Refusals.{atom_records_refusal, atom_refusal};

use crate::AtomRefusal;
use crate::named::{NamedAtoms, NamedUnits};
use hyper_model::{Atom, MOST_ATOMS};
use plan_text::Record;
use std::alloc::Global;

/// The atoms of the records, in order, each in the district of one of these units.
pub(crate) fn read_atoms(
    alloc: Global,
    units: &NamedUnits,
    records: &[Record],
) -> Result<NamedAtoms, AtomRefusal>
    ensures refusal { Checks AtomRefusal.NoMemory result (atom_records_refusal units.now records.now) }
    ensures atoms { IfOk result (λ atoms. atoms ≡ atoms_in units.now records.now) }
{
    let mut atoms = NamedAtoms::of(alloc)?;
    for item in records {
        take_atom(alloc, units, item, &mut atoms)?;
    }
    Ok(atoms)
}

fn take_atom(
    alloc: Global,
    units: &NamedUnits,
    item: &Record,
    atoms: &mut NamedAtoms,
) -> Result<(), AtomRefusal>
    ensures refusal { Checks AtomRefusal.NoMemory result (atom_refusal atoms.old item.now) }
    ensures taken { OnOk result (atoms.new ≡ atoms.old ++ option_to_list (atom_in units.now item.now)) }
{
    let Record::AtomIs {
        at,
        name,
        rate,
        x,
        y,
        unit,
    } = item
    else {
        return Ok(())
    };
    if atoms.contains(name) {
        return Err(AtomRefusal::DuplicateAtom(u64::from(*at)));
    }
    if atoms.len() >= MOST_ATOMS {
        return Err(AtomRefusal::TooManyAtoms(u64::from(*at)));
    }
    let atom = Atom {
        name: name.copied(alloc)?,
        rate: *rate,
        x: *x,
        y: *y,
        district: units.place_of(unit).unwrap_or(0) as u8,
    };
    atoms.push(alloc, atom)?;
    Ok(())
}
