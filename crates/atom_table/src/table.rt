ghost use Rattle.std.specs.Prelude.{◌≡◌, ◌<◌, All, IfSome, is_some, length};
ghost use Rattle.hyper_model.specs.Plans.{IsBetween};
ghost use Rattle.hyper_model.specs.declared.parts.Atom.{Atom};
ghost use Rattle.plan_text.specs.Steps.{Gives, Refuses};
ghost use Rattle.atom_table.specs.Names.{is_among, place_of, place_or_zero};
ghost use Rattle.atom_table.specs.Entries.{atom_names, unit_names};
ghost use Rattle.atom_table.specs.Refusals.{checks_refusal, entries_of};

use crate::AtomRefusal;
use crate::atom_step::read_atoms;
use crate::name_step::check_names;
use crate::named::{NamedAtoms, NamedUnits};
use crate::sum_step::{check_some, check_sums};
use crate::unit_step::read_units;
use hyper_model::{Atoms, MOST_ATOMS, MOST_UNITS, Name, Units};
use plan_text::Record;
use std::alloc::Global;
use std::marker::Model;

/// The units and atoms of a plan, in the order of their records, with their names looked up in maps.
///
/// There are 1 to 12 units and 1 to 200 atoms, and each atom is in the district of one of the units.
#[derive(Drop)]
pub struct AtomTable {
    units: NamedUnits,
    atoms: NamedAtoms,
}

impl Model for AtomTable {
    ghost use Rattle.atom_table.specs.Entries.{Entries, HasEntries};

    ghost Value = { Entries };

    ghost view = { λ a. record { units = a.units; atoms = a.atoms } };

    ghost invariant = { λ a. HasEntries (record { units = a.units; atoms = a.atoms }) };
}

impl AtomTable {
    /// The units and atoms of the records.
    ///
    /// The records are judged in five rounds. First each unit needs a name of its own and is one of the first twelve; then
    /// each atom needs a name of its own and is one of the first 200; then there has to be a unit, and an atom; then every
    /// name in a record has to be that of a unit or of an atom; then the call rates may not all be 0, nor sum to more
    /// than 1,000,000, and nor may the service rates. Within a round the first record that fails is refused.
    pub fn of(alloc: Global, records: &[Record]) -> Result<AtomTable, AtomRefusal>
        ensures { Gives AtomRefusal.NoMemory (λ table. table) result (entries_of records.now) }
    {
        let units = read_units(alloc, records)?;
        let atoms = read_atoms(alloc, &units, records)?;
        check_entries(&units, &atoms, records)?;
        Ok(AtomTable { units, atoms })
    }

    /// The place of the unit with this name, counted from 0: none exactly if no unit has it.
    pub fn unit_of(&self, name: &Name) -> Option<u8>
        ensures place { result ≡ place_of (unit_names self.now.units) name.now }
        ensures known { is_some result ≡ is_among (unit_names self.now.units) name.now }
        ensures within { IfSome result (λ place. place < length self.now.units) }
    {
        match self.units.place_of(name) {
            Some(place) => Some(place as u8),
            None => None,
        }
    }

    /// The place of the atom with this name, counted from 0: none exactly if no atom has it.
    pub fn atom_of(&self, name: &Name) -> Option<u16>
        ensures place { result ≡ place_of (atom_names self.now.atoms) name.now }
        ensures known { is_some result ≡ is_among (atom_names self.now.atoms) name.now }
        ensures within { IfSome result (λ place. place < length self.now.atoms) }
    {
        match self.atoms.place_of(name) {
            Some(place) => Some(place as u16),
            None => None,
        }
    }

    /// The place of the unit with this name, counted from 0, and 0 if no unit has it.
    pub fn unit_place(&self, name: &Name) -> usize
        ensures place { result ≡ place_or_zero (unit_names self.now.units) name.now }
        ensures within { result < length self.now.units }
    {
        self.units.place_of(name).unwrap_or(0)
    }

    /// The place of the atom with this name, counted from 0, and 0 if no atom has it.
    pub fn atom_place(&self, name: &Name) -> usize
        ensures place { result ≡ place_or_zero (atom_names self.now.atoms) name.now }
        ensures within { result < length self.now.atoms }
    {
        self.atoms.place_of(name).unwrap_or(0)
    }

    /// The units.
    pub fn units(&self) -> &Units
        ensures units { result.now ≡ self.now.units }
        ensures number { IsBetween 1 MOST_UNITS (length self.now.units) }
    {
        self.units.list()
    }

    /// The atoms.
    pub fn atoms(&self) -> &Atoms
        ensures atoms { result.now ≡ self.now.atoms }
        ensures number { IsBetween 1 MOST_ATOMS (length self.now.atoms) }
        ensures districts { All (λ (atom : Atom). atom.district < length self.now.units) self.now.atoms }
    {
        self.atoms.list()
    }

    /// The units and the atoms, without the look-up of their names.
    pub fn into_parts(self) -> (Units, Atoms)
        ensures units { result.0 ≡ self.units }
        ensures atoms { result.1 ≡ self.atoms }
    {
        (self.units.into_list(), self.atoms.into_list())
    }
}

/// Refuses the lack of units or of atoms, then the first name that none of them has, then sums of rates.
fn check_entries(
    units: &NamedUnits,
    atoms: &NamedAtoms,
    records: &[Record],
) -> Result<(), AtomRefusal>
    ensures { Refuses result (checks_refusal records.now (record { units = units.now; atoms = atoms.now })) }
{
    check_some(units.list(), atoms.list())?;
    check_names(units.names(), atoms.names(), records)?;
    check_sums(units.list(), atoms.list())
}
