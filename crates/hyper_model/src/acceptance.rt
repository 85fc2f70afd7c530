ghost use Rattle.std.specs.Prelude.{◌≡◌, ◌<◌, ◌≤◌, ◌↔◌, ℕ, IsTrue, length};
ghost use Rattle.hyper_model.specs.declared.TheConstants.{MOST_RATE, MOST_PERIOD};
ghost use Rattle.hyper_model.specs.Plans.{units, atoms, all_calls, all_service, unit_name, atom_name, IsBetween, IsAtomWithin, HasUnits, HasAtoms, HasLists, HasLocations, HasTravel, IsStable, IsAccepted};
ghost use Rattle.hyper_model.specs.Acceptance.{HaveOwnNames, HaveRates, AreAtomsWithin};

use crate::acceptance_tables::{has_lists, has_locations, has_travel};
use crate::own_names::have_own_names;
use crate::{
    Atom, Line, MOST_ATOMS, MOST_COORDINATE, MOST_PERIOD, MOST_RATE, MOST_UNITS, PlanParts,
};

/// Whether a fleet can have these parts.
pub(crate) fn is_accepted(parts: &PlanParts) -> bool
    ensures { IsTrue result ↔ IsAccepted parts.now }
{
    has_units(parts)
        && has_atoms(parts)
        && has_lists(parts)
        && has_locations(parts)
        && has_travel(parts)
        && is_period(parts.period)
        && is_stable(parts)
}

fn is_period(period: u32) -> bool
    ensures { IsTrue result ↔ IsBetween 1 MOST_PERIOD period }
{
    1 <= period && period <= MOST_PERIOD
}

fn is_stable(parts: &PlanParts) -> bool
    ensures { IsTrue result ↔ IsStable parts.now.line (all_calls parts.now) (all_service parts.now) }
{
    match parts.line {
        Line::Zero => true,
        Line::Infinite => parts.atoms.calls() < parts.units.service(),
    }
}

fn has_units(parts: &PlanParts) -> bool
    ensures { IsTrue result ↔ HasUnits parts.now }
{
    1 <= parts.units.len()
        && parts.units.len() <= MOST_UNITS
        && has_unit_names(parts)
        && has_unit_rates(parts)
        && parts.units.service() <= u64::from(MOST_RATE)
}

fn has_unit_names(parts: &PlanParts) -> bool
    ensures { IsTrue result ↔ HaveOwnNames (units parts.now) (unit_name parts.now) }
{
    have_own_names(&parts.units)
}

fn has_unit_rates(parts: &PlanParts) -> bool
    ensures { IsTrue result ↔ HaveRates parts.now }
{
    for n in 0..parts.units.len() {
        if !is_rate(parts.units.get(n).rate) {
            return false;
        }
    }
    true
}

fn is_rate(rate: u32) -> bool
    ensures { IsTrue result ↔ IsBetween 1 MOST_RATE rate }
{
    1 <= rate && rate <= MOST_RATE
}

fn has_atoms(parts: &PlanParts) -> bool
    ensures { IsTrue result ↔ HasAtoms parts.now }
{
    1 <= parts.atoms.len()
        && parts.atoms.len() <= MOST_ATOMS
        && has_atom_names(parts)
        && are_atoms_within(parts)
        && 1 <= parts.atoms.calls()
        && parts.atoms.calls() <= u64::from(MOST_RATE)
}

fn has_atom_names(parts: &PlanParts) -> bool
    ensures { IsTrue result ↔ HaveOwnNames (atoms parts.now) (atom_name parts.now) }
{
    have_own_names(&parts.atoms)
}

fn are_atoms_within(parts: &PlanParts) -> bool
    ensures { IsTrue result ↔ AreAtomsWithin parts.now }
{
    for j in 0..parts.atoms.len() {
        if !is_atom_within(parts.atoms.get(j), parts.units.len()) {
            return false;
        }
    }
    true
}

fn is_atom_within(atom: &Atom, units: usize) -> bool
    ensures { IsTrue result ↔ IsAtomWithin units atom.now }
{
    atom.rate <= MOST_RATE
        && atom.x <= MOST_COORDINATE
        && atom.y <= MOST_COORDINATE
        && usize::from(atom.district) < units
}
