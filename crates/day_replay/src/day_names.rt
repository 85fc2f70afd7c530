ghost use Rattle.std.specs.Prelude.{◌≡◌, ◌<◌, if◌then◌else◌, length, IfOk, IfSome};
ghost use Rattle.atom_table.specs.Entries.{atom_names, unit_names};
ghost use Rattle.day_replay.specs.DayRows.{names_of, place_named};

use atom_table::NameIndex;
use hyper_model::{Name, NameEnd, Plan, law_accepted};
use std::alloc::{AllocError, Global};
use std::marker::Model;

/// The names of a plan's units and atoms, whose places are looked up by their hashes.
#[derive(Drop)]
pub(crate) struct DayNames {
    units: NameIndex,
    atoms: NameIndex,
}

impl Model for DayNames {
    ghost use Rattle.std.specs.Prelude.{◌≤◌, length};
    ghost use Rattle.hyper_model.specs.declared.TheConstants.{MOST_ATOMS, MOST_UNITS};
    ghost use Rattle.day_replay.specs.DayRows.{FleetNames};

    ghost Value = { FleetNames };

    ghost view = { λ a. record { units = a.units; atoms = a.atoms } };

    ghost invariant = { λ a. (length a.units ≤ MOST_UNITS) × (length a.atoms ≤ MOST_ATOMS) };
}

impl DayNames {
    /// The names of the plan.
    pub(crate) fn of(alloc: Global, plan: &Plan) -> Result<DayNames, AllocError>
        ensures { IfOk result (λ names. names ≡ names_of plan.now) }
    {
        law_accepted(plan);
        Ok(DayNames {
            units: index_units(alloc, plan)?,
            atoms: index_atoms(alloc, plan)?,
        })
    }

    /// The place of the unit, or of the atom, that has this name.
    pub(crate) fn place_of(
        &self,
        alloc: Global,
        free: bool,
        name: &[u8],
    ) -> Result<Option<u16>, AllocError>
        ensures place { IfOk result (λ place. place ≡ place_named self.now free name.now) }
        ensures within { IfOk result (λ place. IfSome place (λ place.
            place < length (if free then self.now.units else self.now.atoms))) }
    {
        let names = if free { &self.units } else { &self.atoms };
        match Name::of(alloc, name) {
            Ok(name) => Ok(names.place_of(&name).map(|place| place as u16)),
            Err(NameEnd::BadName) => Ok(None),
            Err(NameEnd::NoMemory) => Err(AllocError),
        }
    }
}

fn index_units(alloc: Global, plan: &Plan) -> Result<NameIndex, AllocError>
    ensures { IfOk result (λ names. names ≡ unit_names plan.now.units) }
{
    law_accepted(plan);
    let mut names = NameIndex::new(alloc);
    for n in 0..plan.units() {
        names.push(plan.unit(n).name.copied(alloc)?)?;
    }
    Ok(names)
}

fn index_atoms(alloc: Global, plan: &Plan) -> Result<NameIndex, AllocError>
    ensures { IfOk result (λ names. names ≡ atom_names plan.now.atoms) }
{
    law_accepted(plan);
    let mut names = NameIndex::new(alloc);
    for j in 0..plan.atoms() {
        names.push(plan.atom(j).name.copied(alloc)?)?;
    }
    Ok(names)
}
