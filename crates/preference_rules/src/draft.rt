ghost use Rattle.std.specs.Prelude.{◌≡◌, ◌<◌, ◌==◌, ◌||◌, if◌then◌else◌, Some, None, OnOk};
ghost use Rattle.plan_text.specs.Steps.{Checks, Refuses};
ghost use Rattle.atom_table.specs.Entries.{unit_names};
ghost use Rattle.preference_rules.specs.Drafts.{draft_refusal, no_draft, with_group, with_next, with_order, with_units};
ghost use Rattle.preference_rules.specs.Lists.{places_of};
ghost use Rattle.preference_rules.specs.Given as given;

use crate::ListRefusal;
use atom_table::AtomTable;
use hyper_model::{MOST_ATOMS, Names};
use std::alloc::{AllocError, Global};
use std::marker::Model;

/// What records give for the preference list of one atom.
#[derive(Drop)]
pub(crate) struct Draft {
    members: Vec<u8>,
    begins: Vec<bool>,
    is_listed: bool,
    is_ordered: bool,
}

impl Model for Draft {
    ghost use Rattle.preference_rules.specs.Drafts as spec;

    ghost Value = { spec.Draft };

    ghost view = { λ a. record {
      row = record { members = a.members.items; begins = a.begins.items };
      is_listed = a.is_listed;
      is_ordered = a.is_ordered;
    } };
}

impl Draft {
    /// A draft to which no record gave anything.
    pub(crate) fn new(alloc: Global) -> Draft
        ensures { result ≡ no_draft }
    {
        Draft {
            members: Vec::new(alloc),
            begins: Vec::new(alloc),
            is_listed: false,
            is_ordered: false,
        }
    }

    /// Takes the whole order of record `at`: each unit is a group of its own.
    pub(crate) fn take_order(
        &mut self,
        at: u32,
        names: &AtomTable,
        units: &Names,
    ) -> Result<(), ListRefusal>
        ensures refusal { Checks ListRefusal.NoMemory result (if self.old.is_listed then Some (ListRefusal.ListTwice at) else None) }
        ensures taken { OnOk result (self.new ≡ with_order self.old (places_of (unit_names names.now.units) units.now)) }
    {
        if self.is_listed {
            return Err(ListRefusal::ListTwice(u64::from(at)));
        }
        self.is_listed = true;
        self.is_ordered = true;
        self.push_units(names, units, true)?;
        Ok(())
    }

    /// Takes the next group, of record `at`.
    pub(crate) fn take_group(
        &mut self,
        at: u32,
        names: &AtomTable,
        units: &Names,
    ) -> Result<(), ListRefusal>
        ensures refusal { Checks ListRefusal.NoMemory result (if self.old.is_ordered then Some (ListRefusal.ListTwice at) else None) }
        ensures taken { OnOk result (self.new ≡ with_group self.old (places_of (unit_names names.now.units) units.now)) }
    {
        if self.is_ordered {
            return Err(ListRefusal::ListTwice(u64::from(at)));
        }
        self.is_listed = true;
        self.push_units(names, units, false)?;
        Ok(())
    }

    /// Puts these units after the others: as one group, or each single, as a group of its own.
    fn push_units(
        &mut self,
        names: &AtomTable,
        units: &Names,
        are_single: bool,
    ) -> Result<(), AllocError>
        ensures { OnOk result (self.new ≡ with_units self.old (places_of (unit_names names.now.units) units.now) are_single) }
    {
        for place in 0..units.len() {
            let unit = names.unit_of(units.get(place)).unwrap_or(0);
            self.push(unit, begins_at(are_single, place))?;
        }
        Ok(())
    }

    /// Puts a unit after the others.
    fn push(&mut self, unit: u8, begins: bool) -> Result<(), AllocError>
        ensures { OnOk result (self.new ≡ with_next self.old unit begins) }
    {
        self.members.push(unit)?;
        self.begins.push(begins)?;
        Ok(())
    }

    /// Refuses the list of this atom, counted from 0, if no record is for it, or if it does not hold each unit once.
    pub(crate) fn check(&self, atom: usize, units: usize) -> Result<(), ListRefusal>
        requires { atom < MOST_ATOMS }
        ensures { Refuses result (draft_refusal units atom self.now) }
    {
        if !self.is_listed {
            return Err(ListRefusal::MissingList(atom as u64 + 1));
        }
        if !holds_each(&self.members, units) {
            return Err(ListRefusal::ListNotWhole(atom as u64 + 1));
        }
        Ok(())
    }

    /// The units in order.
    pub(crate) fn members(&self) -> &[u8]
        ensures { result.now ≡ self.now.row.members }
    {
        &self.members
    }

    /// Of each unit, whether a group begins with it.
    pub(crate) fn begins(&self) -> &[bool]
        ensures { result.now ≡ self.now.row.begins }
    {
        &self.begins
    }
}

/// Whether a group begins at this place of a record: at each, if its units are single, or only at the first.
fn begins_at(are_single: bool, place: usize) -> bool
    ensures { result ≡ (are_single || (place == 0)) }
{
    are_single || place == 0
}

/// Whether each of the first units stands once in the list.
fn holds_each(list: &Vec<u8>, units: usize) -> bool
    ensures { result ≡ given.holds_each units list.now.items }
{
    for unit in 0..units {
        if hyper_model::places_of(list, unit) != 1 {
            return false;
        }
    }
    true
}
