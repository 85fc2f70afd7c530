ghost use Rattle.std.specs.Prelude.{◌≡◌, IfOk};
ghost use Rattle.hyper_model.specs.Plans.{calls_in, service_in};

use crate::{Bounded, Line, Lists, MOST_ATOMS, MOST_UNITS, Name, Rule, Table};
use std::alloc::{AllocError, Global};

/// A unit of the fleet.
#[derive(Debug, Drop)]
pub struct Unit {
    pub name: Name,
    /// How many calls it serves per period while it is busy, 1 to 1,000,000.
    pub rate: u32,
}

impl Unit {
    /// The same unit once more.
    pub fn copied(&self, alloc: Global) -> Result<Unit, AllocError>
        ensures { IfOk result (λ unit. unit ≡ self.now) }
    {
        Ok(Unit {
            name: self.name.copied(alloc)?,
            rate: self.rate,
        })
    }
}

/// An atom: a small area that calls come from.
#[derive(Debug, Drop)]
pub struct Atom {
    pub name: Name,
    /// How many calls come per period, 0 to 1,000,000.
    pub rate: u32,
    /// Its point, 0 to 1,000,000, in any unit of length.
    pub x: u32,
    pub y: u32,
    /// The unit whose district it belongs to, counted from 0.
    pub district: u8,
}

impl Atom {
    /// The same atom once more.
    pub fn copied(&self, alloc: Global) -> Result<Atom, AllocError>
        ensures { IfOk result (λ atom. atom ≡ self.now) }
    {
        Ok(Atom {
            name: self.name.copied(alloc)?,
            rate: self.rate,
            x: self.x,
            y: self.y,
            district: self.district,
        })
    }
}

/// At most twelve names in a row.
pub type Names = Bounded<Name, MOST_UNITS>;

/// At most twelve units in a row.
pub type Units = Bounded<Unit, MOST_UNITS>;

/// At most 200 atoms in a row.
pub type Atoms = Bounded<Atom, MOST_ATOMS>;

impl Bounded<Unit, MOST_UNITS> {
    /// The rate at which all of them serve together, per period.
    pub fn service(&self) -> u64
        ensures { result ≡ service_in self.now }
    {
        let mut total = 0;
        for n in 0..self.len() {
            total += u64::from(self.get(n).rate);
        }
        total
    }

    /// The same units once more.
    pub fn copied(&self, alloc: Global) -> Result<Units, AllocError>
        ensures { IfOk result (λ units. units ≡ self.now) }
    {
        let mut units = Units::of(alloc)?;
        for n in 0..self.len() {
            units.push(self.get(n).copied(alloc)?);
        }
        Ok(units)
    }
}

impl Bounded<Atom, MOST_ATOMS> {
    /// The rate of all their calls, per period.
    pub fn calls(&self) -> u64
        ensures { result ≡ calls_in self.now }
    {
        let mut total = 0;
        for j in 0..self.len() {
            total += u64::from(self.get(j).rate);
        }
        total
    }

    /// The same atoms once more.
    pub fn copied(&self, alloc: Global) -> Result<Atoms, AllocError>
        ensures { IfOk result (λ atoms. atoms ≡ self.now) }
    {
        let mut atoms = Atoms::of(alloc)?;
        for j in 0..self.len() {
            atoms.push(self.get(j).copied(alloc)?);
        }
        Ok(atoms)
    }
}

/// All that a plan says, before it is known to be accepted.
#[derive(Debug, Drop)]
pub struct PlanParts {
    pub line: Line,
    pub rule: Rule,
    /// The period of all rates, in seconds, 1 to 100,000,000.
    pub period: u32,
    pub units: Units,
    pub atoms: Atoms,
    /// The preference list of each atom.
    pub lists: Lists,
    /// For each unit and atom the thousandths of its free time that the unit spends there, 1000 in all.
    pub located: Table,
    /// For each ordered pair of atoms the seconds of travel, 0 to 100,000.
    pub travel: Table,
}
