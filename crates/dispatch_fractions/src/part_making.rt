ghost use Rattle.std.specs.Prelude.{◌≡◌, ◌++◌, ◌<◌, ◌≤◌, IfOk, length, map};
ghost use Rattle.std.specs.List.{flat_map, range_with_len};
ghost use Rattle.fixed_interval.specs.Ends.{ratio_ends};
ghost use Rattle.fixed_interval.specs.WeightList.{ends_at};
ghost use Rattle.hyper_model.specs.Plans.{units, service_of, all_service};
ghost use Rattle.busy_words.specs.WeightParts.{IsOrderOf, places};
ghost use Rattle.dispatch_fractions.specs.PartLists.{taken_row, waiting_on};

use busy_words::{Order, taken_part};
use fixed_interval::{Iv, Weights};
use hyper_model::{Line, Plan};
use std::alloc::{AllocError, Global};

/// Unit by unit, what each takes at once of the calls of each atom.
pub(crate) fn taken_parts(
    alloc: Global,
    plan: &Plan,
    order: &Order,
    weights: &Weights,
) -> Result<Vec<Iv>, AllocError>
    requires order { IsOrderOf plan.now order.now }
    requires one_each { length weights.now.items ≡ places plan.now }
    ensures { IfOk result (λ taken. taken.items
        ≡ flat_map (taken_row plan.now order.now (ends_at weights.now.items)) (range_with_len 0 (units plan.now))) }
{
    let mut taken = Vec::new(alloc);
    for unit in 0..plan.units() {
        push_taken(&mut taken, plan, order, weights, unit as u8)?;
    }
    Ok(taken)
}

fn push_taken(
    taken: &mut Vec<Iv>,
    plan: &Plan,
    order: &Order,
    weights: &Weights,
    unit: u8,
) -> Result<(), AllocError>
    requires order { IsOrderOf plan.now order.now }
    requires one_each { length weights.now.items ≡ places plan.now }
    requires unit { unit < units plan.now }
    ensures { IfOk result (λ _. taken.new.items
        ≡ taken.old.items ++ taken_row plan.now order.now (ends_at weights.now.items) unit) }
{
    for atom in 0..plan.atoms() {
        taken.push(taken_part(plan, order, weights, unit, atom))?;
    }
    Ok(())
}

/// Of each unit, the part that it takes of the calls that wait.
pub(crate) fn help_parts(alloc: Global, plan: &Plan, waiting: Iv) -> Result<Vec<Iv>, AllocError>
    ensures { IfOk result (λ help. help.items
        ≡ map (λ n. ratio_ends waiting (service_of plan.now n) (all_service plan.now)) (range_with_len 0 (units plan.now))) }
{
    let service = plan.service();
    let mut help = Vec::new(alloc);
    for unit in 0..plan.units() {
        help.push(help_part(waiting, plan.unit(unit).rate, service))?;
    }
    Ok(help)
}

/// The part of the answered calls that wait, if `full` is that of the states in which all units are busy.
pub(crate) fn waiting_part(plan: &Plan, full: Iv) -> Iv
    ensures { result ≡ waiting_on plan.now.line full }
{
    match plan.line() {
        Line::Zero => Iv::exact(0),
        Line::Infinite => full,
    }
}

// The part of what waits that one of all services is.
fn help_part(waiting: Iv, rate: u32, service: u32) -> Iv
    requires some { 1 ≤ service }
    requires part { rate ≤ service }
    ensures { result ≡ ratio_ends waiting rate service }
{
    let help = waiting.wide().ratio(u64::from(rate), u64::from(service));
    Iv::new(help.lo() as u64, help.hi() as u64).unwrap()
}
