ghost use Rattle.std.specs.Prelude.{◌≡◌};
ghost use Rattle.std.specs.List.{list_all};

use crate::MOST_UNITS;
use std::alloc::{AllocError, Global};
use std::marker::Model;

/// The list of one atom: a unit at each place, and whether a group begins there.
#[derive(Clone, Copy, Debug)]
pub(crate) struct ListRow {
    pub(crate) members: [u8; MOST_UNITS],
    pub(crate) begins: [bool; MOST_UNITS],
}

/// A preference list of units for each atom, cut into groups.
///
/// A call goes to one of the free units of the first group that has one, each with equal probability.
/// A list whose groups have one unit each is a plain order of the units.
#[derive(Debug, Drop)]
pub struct Lists {
    units: usize,
    rows: Vec<ListRow>,
}

impl Model for Lists {
    ghost use Rattle.hyper_model.specs.Groups.{GroupLists};

    ghost Value = { GroupLists };

    ghost use Rattle.hyper_model.specs.ListRows.{lists_seen, IsRoomy};

    ghost view = { λ a. lists_seen a.units a.rows.items };

    ghost invariant = { λ a. IsRoomy a.units a.rows.items };
}

impl Lists {
    ghost use Rattle.std.specs.Prelude.{◌≡◌, ◌<◌, ◌≤◌, ℕ, IfOk, length, drop};
    ghost use Rattle.hyper_model.specs.declared.TheConstants.{MOST_UNITS, MOST_ATOMS};
    ghost use Rattle.hyper_model.specs.Plans.{are_single};
    ghost use Rattle.hyper_model.specs.Groups.{row_of, list_of, groups_in, member_at, begins_at, first_lists, with_member, with_joined, IsRegular};

    /// Lists with the unit 0 at every place, each in a group of its own.
    pub fn of(alloc: Global, atoms: usize, units: usize) -> Result<Lists, AllocError>
        requires atoms { atoms ≤ MOST_ATOMS }
        requires units { units ≤ MOST_UNITS }
        ensures { IfOk result (λ lists. lists ≡ first_lists atoms units) }
    {
        let row = ListRow {
            members: [0; MOST_UNITS],
            begins: [true; MOST_UNITS],
        };
        let rows = vec![in alloc; row; atoms]?;
        Ok(Lists { units, rows })
    }

    /// The same lists once more.
    pub fn copied(&self, alloc: Global) -> Result<Lists, AllocError>
        ensures { IfOk result (λ lists. lists ≡ self.now) }
    {
        let mut rows = Vec::new(alloc);
        rows.extend_from_slice(&self.rows)?;
        Ok(Lists {
            units: self.units,
            rows,
        })
    }

    /// How many atoms have a list.
    pub fn atoms(&self) -> usize
        ensures atoms { result ≡ length self.now.rows }
        ensures most { result ≤ MOST_ATOMS }
    {
        self.rows.len()
    }

    /// How many units each list has.
    pub fn units(&self) -> usize
        ensures units { result ≡ self.now.units }
        ensures most { result ≤ MOST_UNITS }
        ensures regular { IsRegular self.now }
    {
        self.units
    }

    /// The unit at this place of the atom's list, all counted from 0.
    pub fn unit(&self, atom: usize, place: usize) -> u8
        requires atom { atom < length self.now.rows }
        requires place { place < self.now.units }
        ensures { result ≡ member_at self.now atom place }
    {
        self.rows[atom].members[place]
    }

    /// Whether a group begins at this place: so at each place until it is joined.
    pub fn begins(&self, atom: usize, place: usize) -> bool
        requires atom { atom < length self.now.rows }
        requires place { place < self.now.units }
        ensures { result ≡ begins_at self.now atom place }
    {
        self.rows[atom].begins[place]
    }

    /// The units of an atom's list, in order.
    pub fn list(&self, atom: usize) -> &[u8]
        requires { atom < length self.now.rows }
        ensures units { result.now ≡ list_of self.now atom }
        ensures one_each { length (list_of self.now atom) ≡ self.now.units }
    {
        let row = &self.rows[atom];
        &row.members[..self.units]
    }

    /// Of each place of an atom's list but the first, whether a group begins there.
    pub fn later_begins(&self, atom: usize) -> &[bool]
        requires { atom < length self.now.rows }
        ensures begins { result.now ≡ drop 1 (row_of self.now atom).begins }
        ensures one_each { length (row_of self.now atom).begins ≡ self.now.units }
    {
        let row = &self.rows[atom];
        &row.begins[self.units.min(1)..self.units]
    }

    /// Whether each group of an atom's list has one unit.
    pub fn is_single(&self, atom: usize) -> bool
        requires { atom < length self.now.rows }
        ensures { result ≡ are_single (groups_in self.now atom) }
    {
        let _list = self.list(atom);
        all_begin(self.later_begins(atom))
    }

    /// Puts a unit at this place, and leaves all else.
    pub fn set(&mut self, atom: usize, place: usize, unit: u8)
        requires atom { atom < length self.old.rows }
        requires place { place < self.old.units }
        ensures { self.new ≡ with_member self.old atom place unit }
    {
        let row = &mut self.rows[atom];
        row.members[place] = unit;
    }

    /// Puts this place, which is not the first, into the group of the place before it, and leaves all
    /// else.
    pub fn join(&mut self, atom: usize, place: usize)
        requires atom { atom < length self.old.rows }
        requires place { place < self.old.units }
        requires later { 1 ≤ place }
        ensures { self.new ≡ with_joined self.old atom place }
    {
        let row = &mut self.rows[atom];
        row.begins[place] = false;
    }
}

fn all_begin(begins: &[bool]) -> bool
    ensures { result ≡ list_all (λ begin. begin) begins.now }
{
    begins.iter().all(|begin| *begin)
}
