ghost use Rattle.std.specs.Prelude.{◌≡◌, ◌+◌, ◌≤◌, ◌++◌, [], IfOk, false, length, map};
ghost use Rattle.std.specs.List.{range_with_len};
ghost use Rattle.hyper_model.specs.declared.TheConstants.{MOST_ATOMS, MOST_UNITS};
ghost use Rattle.hyper_model.specs.Plans.{atoms, units};
ghost use Rattle.timely_reach.specs.Reach.{IsReachInRange, has_no_calls};
ghost use Rattle.timely_reach.specs.ReachRows.{AreReady, row_of, rows_from, share_in};

use crate::kinds::TimelyPlans;
use crate::shares::share_of;
use crate::{ReachMeasure, ReachRow, ReachRows};
use dispatch_fractions::{Parts, calls_inside};
use hyper_model::{Bounded, MOST_LIMITS, Plan, Value, law_accepted};
use std::alloc::{AllocError, Global};

/// All rows, of the timely plan of each limit.
pub(crate) fn all_rows(
    alloc: Global,
    plan: &Plan,
    timely: &TimelyPlans,
    parts: &Parts,
) -> Result<ReachRows, AllocError>
    requires { AreReady plan.now parts.now timely.now }
    ensures { IfOk result (λ rows. rows ≡ rows_from plan.now timely.now parts.now) }
{
    law_accepted(plan);
    let mut rows = ReachRows::of(alloc)?;
    rows.push(row_of(alloc, plan, timely, parts, ReachMeasure::Region)?);
    rows.push(row_of(alloc, plan, timely, parts, ReachMeasure::All)?);
    rows.push(row_of(alloc, plan, timely, parts, ReachMeasure::AtOnce)?);
    push_atoms(&mut rows, alloc, plan, timely, parts)?;
    push_units(&mut rows, alloc, plan, timely, parts)?;
    push_districts(&mut rows, alloc, plan, timely, parts)?;
    Ok(rows)
}

fn push_atoms(
    rows: &mut ReachRows,
    alloc: Global,
    plan: &Plan,
    timely: &TimelyPlans,
    parts: &Parts,
) -> Result<(), AllocError>
    requires ready { AreReady plan.now parts.now timely.now }
    requires room { length rows.old ≤ 3 }
    ensures { IfOk result (λ _. rows.new ≡ rows.old
        ++ map (λ j. row_of plan.now timely.now parts.now (ReachMeasure.Atom j)) (range_with_len 0 (atoms plan.now))) }
{
    for atom in 0..plan.atoms() {
        rows.push(row_of(alloc, plan, timely, parts, ReachMeasure::Atom(atom as u16))?);
    }
    Ok(())
}

fn push_units(
    rows: &mut ReachRows,
    alloc: Global,
    plan: &Plan,
    timely: &TimelyPlans,
    parts: &Parts,
) -> Result<(), AllocError>
    requires ready { AreReady plan.now parts.now timely.now }
    requires room { length rows.old ≤ 3 + MOST_ATOMS }
    ensures { IfOk result (λ _. rows.new ≡ rows.old
        ++ map (λ n. row_of plan.now timely.now parts.now (ReachMeasure.Unit n)) (range_with_len 0 (units plan.now))) }
{
    for unit in 0..plan.units() {
        rows.push(row_of(alloc, plan, timely, parts, ReachMeasure::Unit(unit as u8))?);
    }
    Ok(())
}

fn push_districts(
    rows: &mut ReachRows,
    alloc: Global,
    plan: &Plan,
    timely: &TimelyPlans,
    parts: &Parts,
) -> Result<(), AllocError>
    requires ready { AreReady plan.now parts.now timely.now }
    requires room { length rows.old ≤ 3 + MOST_ATOMS + MOST_UNITS }
    ensures { IfOk result (λ _. rows.new ≡ rows.old
        ++ map (λ n. row_of plan.now timely.now parts.now (ReachMeasure.District n)) (range_with_len 0 (units plan.now))) }
{
    for unit in 0..plan.units() {
        rows.push(row_of(
            alloc,
            plan,
            timely,
            parts,
            ReachMeasure::District(unit as u8),
        )?);
    }
    Ok(())
}

fn row_of(
    alloc: Global,
    plan: &Plan,
    timely: &TimelyPlans,
    parts: &Parts,
    measure: ReachMeasure,
) -> Result<ReachRow, AllocError>
    requires ready { AreReady plan.now parts.now timely.now }
    requires in_range { IsReachInRange plan.now measure }
    ensures { IfOk result (λ row. row ≡ row_of plan.now timely.now parts.now measure) }
{
    let mut ends = Bounded::of(alloc)?;
    if !has_no_calls(plan, measure) {
        push_shares(&mut ends, plan, timely, parts, measure);
    }
    Ok(ReachRow { measure, ends })
}

fn has_no_calls(plan: &Plan, measure: ReachMeasure) -> bool
    ensures { result ≡ has_no_calls plan.now measure }
{
    match measure {
        ReachMeasure::District(unit) => calls_inside(plan, usize::from(unit)) == 0,
        _ => false,
    }
}

fn push_shares(
    ends: &mut Bounded<Value, MOST_LIMITS>,
    plan: &Plan,
    timely: &TimelyPlans,
    parts: &Parts,
    measure: ReachMeasure,
)
    requires ready { AreReady plan.now parts.now timely.now }
    requires in_range { IsReachInRange plan.now measure }
    requires called { has_no_calls plan.now measure ≡ false }
    requires empty { ends.old ≡ [] }
    ensures { ends.new ≡ map (share_in parts.now measure) timely.now }
{
    for place in 0..timely.len() {
        ends.push(share_of(timely.get(place), parts, measure));
    }
}
