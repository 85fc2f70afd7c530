ghost use Rattle.std.specs.Prelude.{◌≡◌, ◌≢◌, ℕ, ◌<◌, ◌≤◌, IfOk, length, slice_index};
ghost use Rattle.preference_rules.specs.CentreOrder as spec;
ghost use Rattle.preference_rules.specs.Places.{cost_of};
ghost use Rattle.preference_rules.specs.Centred.{centred_lists};

use crate::order::centre_list;
use crate::points::{call_place, unit_place, way};
use crate::rows::put_members;
use hyper_model::{Atom, Atoms, Lists, MOST_UNITS, Rule, Table, Units};
use std::alloc::{AllocError, Global};

/// The preference lists of the centre-of-mass rules: the units by their mean distance to a call, along the two axes of
/// the map, the nearest first (Larson and Odoni, chapter 5).
///
/// A unit is at its mean place. By the rule `Modified` a call comes from its atom's place, by the rule `Strict` from the
/// mean place of the calls of the atom's district, where each atom counts once if the district has no calls. Of units at
/// the same distance the one of the atom's district goes first, then the one with the lower number. Each unit is a group
/// of its own.
pub fn centred(
    alloc: Global,
    rule: Rule,
    units: &Units,
    atoms: &Atoms,
    located: &Table,
) -> Result<Lists, AllocError>
    requires rule { rule ≢ Rule.Given }
    requires units { located.now.rows ≡ length units.now }
    requires atoms { located.now.cols ≡ length atoms.now }
    ensures { IfOk result (λ lists. lists ≡ centred_lists rule (length units.now) atoms.now located.now) }
{
    let mut lists = Lists::of(alloc, atoms.len(), units.len())?;
    for j in 0..atoms.len() {
        let order = order_of(alloc, rule, atoms, located, atoms.get(j))?;
        put_members(&mut lists, j, &order);
    }
    Ok(lists)
}

/// The units in the order in which they are sent to a call of the atom.
fn order_of(
    alloc: Global,
    rule: Rule,
    atoms: &Atoms,
    located: &Table,
    atom: &Atom,
) -> Result<Vec<u8>, AllocError>
    requires units { located.now.rows ≤ MOST_UNITS }
    requires atoms { located.now.cols ≡ length atoms.now }
    ensures { IfOk result (λ order.
        order.items ≡ spec.centre_list (cost_of rule atoms.now located.now atom.now) atom.now.district located.now.rows) }
{
    let costs = costs_of(alloc, rule, atoms, located, atom)?;
    centre_list(alloc, &costs, atom.district)
}

/// What it costs to send each unit to a call of the atom.
fn costs_of(
    alloc: Global,
    rule: Rule,
    atoms: &Atoms,
    located: &Table,
    atom: &Atom,
) -> Result<Vec<u128>, AllocError>
    requires { located.now.cols ≡ length atoms.now }
    ensures number { IfOk result (λ costs. length costs.items ≡ located.now.rows) }
    ensures costs { IfOk result (λ costs. (n : ℕ) → n < located.now.rows
        → slice_index costs.items n ≡ cost_of rule atoms.now located.now atom.now n) }
{
    let call = call_place(rule, atoms, atom);
    let mut costs = Vec::new(alloc);
    for unit in 0..located.rows() {
        costs.push(way(unit_place(atoms, located, unit), call))?;
    }
    Ok(costs)
}
