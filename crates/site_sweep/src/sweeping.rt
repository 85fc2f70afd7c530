ghost use Rattle.std.specs.Prelude.{◌≡◌, ◌-◌, ◌<◌, ◌≤◌, ◌++◌, true, map, IfOk};
ghost use Rattle.hyper_model.specs.Measures.{is_of_region};
ghost use Rattle.hyper_model.specs.Plans.{atoms, units};
ghost use Rattle.hyper_model.specs.Values as spec;
ghost use Rattle.hyper_model.specs.declared.TheConstants.{MOST_ATOMS};
ghost use Rattle.plan_solver.specs.Enclosures.{AreEnclosuresOf};
ghost use Rattle.site_sweep.specs.Sites.{AreSitesOf, AreValuesOf, GainsValues, placed_from, placed_plans};

use crate::enclosing::enclose_each;
use crate::{Sites, placed};
use hyper_model::{Enclosures, Measure, Plan, Value, law_accepted, value_in};
use std::alloc::{AllocError, Global};

/// The most placed plans that are in memory at once.
pub const MOST_PLACED: usize = 16;

/// The sites of a unit by a measure of the whole region: the unit is placed wholly at each atom in turn.
///
/// Each site has the ends of the measure in the plan with the unit there, which contain it for every solution of the
/// plan's balance equations. A site is dropped exactly if the low end is above the high end of some other site, which
/// then is better whatever the solutions. There is an error only for lack of memory.
pub fn sweep(alloc: Global, plan: &Plan, unit: u8, measure: Measure) -> Result<Sites, AllocError>
    requires unit { unit < units plan.now }
    requires region { is_of_region measure ≡ true }
    ensures { IfOk result (AreSitesOf plan.now unit measure) }
{
    sweep_with(
        alloc,
        plan,
        unit,
        measure,
        1,
        &|plans: &[Plan], _workers: u32| -> Result<Vec<Enclosures>, AllocError>
            ensures { IfOk result (λ found. AreEnclosuresOf plans.now found.items) }
        { enclose_each(alloc, plans) },
    )
}

/// Does what [`sweep`] does, and leaves it to the caller to enclose the measures of plans by so many workers.
///
/// At most [`MOST_PLACED`] plans are handed over at once, so that no more are in memory.
pub fn sweep_with<E: Fn(&[Plan], u32) -> Result<Vec<Enclosures>, AllocError>>(
    alloc: Global,
    plan: &Plan,
    unit: u8,
    measure: Measure,
    workers: u32,
    enclose: &E,
) -> Result<Sites, AllocError>
    requires unit { unit < units plan.now }
    requires region { is_of_region measure ≡ true }
    requires may_enclose { (plans : _) → E.pre enclose.now plans workers }
    requires encloses { (plans : _) (found : _) → E.post enclose.now plans workers found
        → IfOk found (λ found. AreEnclosuresOf plans.now found.items) }
    ensures { IfOk result (AreSitesOf plan.now unit measure) }
{
    law_accepted(plan);
    let values = values_of(alloc, plan, unit, measure, workers, enclose)?;
    Sites::of(alloc, &values)
}

/// The ends of the measure with the unit at each atom, batch by batch.
fn values_of<E: Fn(&[Plan], u32) -> Result<Vec<Enclosures>, AllocError>>(
    alloc: Global,
    plan: &Plan,
    unit: u8,
    measure: Measure,
    workers: u32,
    enclose: &E,
) -> Result<Vec<Value>, AllocError>
    requires unit { unit < units plan.now }
    requires may_enclose { (plans : _) → E.pre enclose.now plans workers }
    requires encloses { (plans : _) (found : _) → E.post enclose.now plans workers found
        → IfOk found (λ found. AreEnclosuresOf plans.now found.items) }
    ensures { IfOk result (λ values. AreValuesOf measure (placed_plans plan.now unit) values.items) }
{
    let atoms = plan.atoms();
    let mut values = Vec::new(alloc);
    for batch in 0..atoms.div_ceil(MOST_PLACED) {
        let first = batch * MOST_PLACED;
        let until = atoms.min(first + MOST_PLACED);
        let plans = plans_placed(alloc, plan, unit, first, until)?;
        push_batch(&mut values, &plans, measure, workers, enclose)?;
    }
    Ok(values)
}

/// Puts the ends of the measure in each of these plans after the others.
fn push_batch<E: Fn(&[Plan], u32) -> Result<Vec<Enclosures>, AllocError>>(
    values: &mut Vec<Value>,
    plans: &[Plan],
    measure: Measure,
    workers: u32,
    enclose: &E,
) -> Result<(), AllocError>
    requires may_enclose { (plans : _) → E.pre enclose.now plans workers }
    requires encloses { (plans : _) (found : _) → E.post enclose.now plans workers found
        → IfOk found (λ found. AreEnclosuresOf plans.now found.items) }
    ensures { IfOk result (λ _. GainsValues measure plans.now values.old.items values.new.items) }
{
    let found = enclose(plans, workers)?;
    push_values(values, &found, measure)
}

/// The plans with the unit at the atoms from `first` on, to the one before `until`.
fn plans_placed(
    alloc: Global,
    plan: &Plan,
    unit: u8,
    first: usize,
    until: usize,
) -> Result<Vec<Plan>, AllocError>
    requires unit { unit < units plan.now }
    requires atoms { until ≤ atoms plan.now }
    requires order { first ≤ until }
    requires few { until ≤ MOST_ATOMS }
    ensures { IfOk result (λ plans. plans.items ≡ placed_from plan.now unit first (until - first)) }
{
    let mut plans = Vec::new(alloc);
    for k in first..until {
        plans.push(placed(alloc, plan, unit, k as u16)?)?;
    }
    Ok(plans)
}

/// Puts the ends that each list has for a measure after the others.
fn push_values(
    values: &mut Vec<Value>,
    found: &[Enclosures],
    measure: Measure,
) -> Result<(), AllocError>
    ensures { IfOk result (λ _. values.new.items
        ≡ values.old.items ++ map (λ list. spec.value_in measure list.items) found.now) }
{
    for list in found {
        values.push(value_in(list, measure))?;
    }
    Ok(())
}
