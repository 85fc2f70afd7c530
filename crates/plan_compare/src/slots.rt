ghost use Rattle.std.specs.Prelude.{◌≡◌, None, All, IfOk, List, replicate};
ghost use Rattle.hyper_model.specs.declared.kinds.Method as method;
ghost use Rattle.hyper_model.specs.declared.parts.PlanParts.{PlanParts};
ghost use Rattle.plan_compare.specs.Solving.{AreSlotsOf, AreSolvedOf, IsSlotOf, IsSolvedOf};
ghost use Rattle.plan_solver.specs.SoundEnclosures.{AreEnclosuresBy, IsEnclosureBy};

use hyper_model::{Enclosures, Method, Plan};
use plan_solver::enclose_by;
use rate_matrix::Gate;
use std::alloc::{AllocError, Global};
use std::thread::Threads;

/// The measures of a plan, with its place among the plans.
#[derive(Drop)]
pub(crate) struct Solved {
    pub place: usize,
    pub found: Enclosures,
}

/// A slot for each plan, with what the workers found of it.
pub(crate) fn slots_of(
    alloc: Global,
    plans: &[Plan],
    lists: Vec<Result<Vec<Solved>, AllocError>>,
) -> Result<Vec<Option<Enclosures>>, AllocError>
    ensures { IfOk result (λ slots. (m : method.Method)
        → All (λ list. IfOk list (λ solved. AreSolvedOf m plans.now solved.items)) lists.items
        → AreSlotsOf m plans.now slots.items) }
{
    let mut slots = empty_slots(alloc, plans.len())?;
    for list in lists {
        fill_slots(&mut slots, list?);
    }
    Ok(slots)
}

/// So many empty slots.
fn empty_slots(alloc: Global, count: usize) -> Result<Vec<Option<Enclosures>>, AllocError>
    ensures { IfOk result (λ slots. slots.items ≡ replicate count None) }
{
    let mut slots = Vec::new(alloc);
    for _ in 0..count {
        slots.push(None)?;
    }
    Ok(slots)
}

/// Puts what a worker found into the slots of its plans.
fn fill_slots(slots: &mut [Option<Enclosures>], list: Vec<Solved>)
    ensures { (m : method.Method) (plans : List PlanParts) → AreSolvedOf m plans list.items
        → AreSlotsOf m plans slots.old → AreSlotsOf m plans slots.new }
{
    for solved in list {
        fill_slot(slots, solved);
    }
}

/// Puts what is found of a plan into its slot.
fn fill_slot(slots: &mut [Option<Enclosures>], solved: Solved)
    ensures { (m : method.Method) (plans : List PlanParts) → IsSolvedOf m plans solved
        → AreSlotsOf m plans slots.old → AreSlotsOf m plans slots.new }
{
    if solved.place < slots.len() {
        slots[solved.place] = Some(solved.found);
    }
}

/// What stands in the slots, in their order.
///
/// Some worker takes each plan, but no contract of the counter says so: a plan whose slot is empty is solved here.
pub(crate) fn in_order<R: Threads + Sync, G: Gate + Sync>(
    rt: &R,
    alloc: Global,
    plans: &[Plan],
    method: Method,
    gate: &G,
    mut slots: Vec<Option<Enclosures>>,
) -> Result<Vec<Enclosures>, AllocError>
    requires { AreSlotsOf method plans.now slots.items }
    ensures { IfOk result (λ found. AreEnclosuresBy method plans.now found.items) }
{
    let mut all = Vec::new(alloc);
    for place in 0..plans.len() {
        let slot = slots[place].take();
        all.push(found_in(rt, alloc, &plans[place], method, gate, place, slot)?)?;
    }
    Ok(all)
}

/// What stands in the slot of a plan, or what is found now if nothing stands there.
fn found_in<R: Threads + Sync, G: Gate + Sync>(
    rt: &R,
    alloc: Global,
    plan: &Plan,
    method: Method,
    gate: &G,
    place: usize,
    slot: Option<Enclosures>,
) -> Result<Enclosures, AllocError>
    requires { IsSlotOf method plan.now slot }
    ensures { IfOk result (λ found. IsEnclosureBy method plan.now found.items) }
{
    match slot {
        Some(found) => Ok(found),
        None => enclose_by(rt, alloc, plan, method, 1, gate, place),
    }
}
