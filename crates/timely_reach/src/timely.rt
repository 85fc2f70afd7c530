ghost use Rattle.std.specs.Prelude.{◌≡◌, IfOk};
ghost use Rattle.timely_reach.specs.TimelyPlans as spec;
ghost use Rattle.timely_reach.specs.ReachRows as rows;

use crate::kinds::{TimelyPlan, TimelyPlans};
use hyper_model::{Limits, Plan, PlanParts, Table};
use std::alloc::{AllocError, Global};
use travel_measures::TravelTotals;

/// The timely plan of each limit.
pub(crate) fn timely_plans(
    alloc: Global,
    plan: &Plan,
    limits: &Limits,
) -> Result<TimelyPlans, AllocError>
    ensures { IfOk result (λ timely. timely ≡ rows.timely_plans plan.now limits.now) }
{
    let mut timely = TimelyPlans::of(alloc)?;
    for place in 0..limits.len() {
        timely.push(timely_plan(alloc, plan, *limits.get(place))?);
    }
    Ok(timely)
}

/// The plan whose trips take 1000 seconds if they are timely, and else none.
fn timely_plan(alloc: Global, plan: &Plan, limit: u32) -> Result<TimelyPlan, AllocError>
    ensures { IfOk result (λ timely. timely ≡ spec.timely_plan plan.now limit) }
{
    let parts = plan.parts();
    let travel = timely_table(alloc, &parts.travel, limit)?;
    let timely = parts_with(alloc, parts, travel)?;
    let plan = Plan::of_accepted(timely);
    let totals = TravelTotals::of(&plan);
    Ok(TimelyPlan { plan, totals })
}

/// These parts once more, but with these travel times.
fn parts_with(alloc: Global, parts: &PlanParts, travel: Table) -> Result<PlanParts, AllocError>
    ensures { IfOk result (λ timely. timely ≡ record parts.now { travel = travel }) }
{
    Ok(PlanParts {
        line: parts.line,
        rule: parts.rule,
        period: parts.period,
        units: parts.units.copied(alloc)?,
        atoms: parts.atoms.copied(alloc)?,
        lists: parts.lists.copied(alloc)?,
        located: parts.located.copied(alloc)?,
        travel,
    })
}

fn timely_table(alloc: Global, travel: &Table, limit: u32) -> Result<Table, AllocError>
    ensures { IfOk result (λ table. table ≡ spec.timely_table limit travel.now) }
{
    let mut table = travel.copied(alloc)?;
    put_timely(&mut table, limit);
    Ok(table)
}

fn put_timely(table: &mut Table, limit: u32)
    ensures { table.new ≡ spec.timely_table limit table.old }
{
    let cols = table.cols();
    for place in 0..table.rows() * cols {
        let seconds = table.get(place / cols, place % cols);
        table.set(place / cols, place % cols, timely_seconds(limit, seconds));
    }
}

fn timely_seconds(limit: u32, seconds: u32) -> u32
    ensures { result ≡ spec.timely_seconds limit seconds }
{
    if seconds <= limit { 1000 } else { 0 }
}
