use crate::cases::{Digests, GRID, MADE, TEN_UNITS, WORKED};
use crate::chains::{dense_digests, digest_by_workers, order_of, packed_digests, weights_digest};
use hyper_model::Plan;
use plan_maker::make;
use plan_reader::read_plan;
use rate_matrix::WordChain;
use std::alloc::Global;
use std::process::Abort;
use std::test::Fail;
use std::thread::Threads;
use worked_plans::grid;

#[test]
fn every_way_gives_the_digests_of_worked_plans(rt: HostRuntime) -> Result<(), Fail> {
    for (text, wanted) in WORKED {
        check(&rt, rt.alloc(), text.as_bytes(), wanted)?;
    }
    Ok(())
}

#[test]
fn every_way_gives_the_digests_of_a_grid(rt: HostRuntime) -> Result<(), Fail> {
    let text = grid(rt.alloc())?;
    check(&rt, rt.alloc(), text.as_bytes(), GRID)
}

#[test]
fn every_way_gives_the_digests_of_a_made_plan(rt: HostRuntime) -> Result<(), Fail> {
    let text = make(rt.alloc(), 8, 1)?;
    check(&rt, rt.alloc(), &text, MADE)
}

/// The dense form changes a matrix of 1,024 rows 1,023 times.
#[test]
fn both_forms_give_the_digests_of_ten_units(rt: HostRuntime) -> Result<(), Fail> {
    let text = make(rt.alloc(), 10, 7)?;
    let plan = read_plan(rt.alloc(), &text)?;
    let order = order_of(rt.alloc(), &plan)?;
    check_forms(&rt, rt.alloc(), &WordChain::of(&plan, &order), TEN_UNITS)
}

fn check<R: Threads + Sync + Abort>(
    rt: &R,
    alloc: Global,
    text: &[u8],
    wanted: Digests,
) -> Result<(), Fail> {
    let plan = read_plan(alloc, text)?;
    check_plan(rt, alloc, &plan, wanted)
}

fn check_plan<R: Threads + Sync + Abort>(
    rt: &R,
    alloc: Global,
    plan: &Plan,
    wanted: Digests,
) -> Result<(), Fail> {
    let order = order_of(alloc, plan)?;
    let chain = WordChain::of(plan, &order);
    assert_eq!(rt; weights_digest(alloc, plan, &chain)?, wanted.weights);
    check_workers(rt, alloc, &chain, wanted.left)?;
    check_forms(rt, alloc, &chain, wanted)
}

fn check_forms(
    rt: &impl Abort,
    alloc: Global,
    chain: &WordChain,
    wanted: Digests,
) -> Result<(), Fail> {
    assert_eq!(rt; dense_digests(alloc, chain)?, (wanted.rates, wanted.left));
    assert_eq!(rt; packed_digests(alloc, chain)?, (wanted.rates, wanted.left));
    Ok(())
}

fn check_workers<R: Threads + Sync + Abort>(
    rt: &R,
    alloc: Global,
    chain: &WordChain,
    left: u64,
) -> Result<(), Fail> {
    for workers in [1, 3, 16] {
        assert_eq!(rt; digest_by_workers(rt, alloc, chain, workers)?, left);
    }
    Ok(())
}
