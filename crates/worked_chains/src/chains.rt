ghost use Rattle.std.specs.Prelude.{◌≡◌, ◌≤◌, IfOk};
ghost use Rattle.hyper_model.specs.Plans.{units};

use crate::digests::{digest_of_entries, digest_of_weights};
use back_solve::solve_back;
use busy_words::Order;
use fixed_interval::Weights;
use hyper_model::{Line, Plan};
use queue_tail::add_tail;
use rate_matrix::{OpenGate, RateMatrix, WordChain};
use state_reduction::{Row, reduce, reduce_packed, reduce_rows};
use std::alloc::{AllocError, Global};
use std::thread::Threads;

/// The order of a plan's words.
pub(crate) fn order_of(alloc: Global, plan: &Plan) -> Result<Order, AllocError>
    ensures { IfOk result (λ order. order.units ≡ units plan.now) }
{
    Order::of(alloc, plan.units() as u8)
}

/// The digests of the rates of a chain and of the entries that are left of them, by the dense form.
pub(crate) fn dense_digests(alloc: Global, chain: &WordChain) -> Result<(u64, u64), AllocError> {
    let mut m = RateMatrix::dense(alloc, chain)?;
    let mut scratch = Row::reserved(alloc, m.size())?;
    let rates = digest_of_entries(&m);
    reduce(&mut m, &mut scratch);
    Ok((rates, digest_of_entries(&m)))
}

/// The same by the packed form.
pub(crate) fn packed_digests(alloc: Global, chain: &WordChain) -> Result<(u64, u64), AllocError> {
    let mut m = RateMatrix::packed(alloc, chain)?;
    let mut scratch = Row::reserved(alloc, m.size())?;
    let rates = digest_of_entries(&m);
    reduce_packed(&mut m, &mut scratch);
    Ok((rates, digest_of_entries(&m)))
}

/// The digest of the entries that are left of a chain by so many workers.
pub(crate) fn digest_by_workers<R: Threads + Sync>(
    rt: &R,
    alloc: Global,
    chain: &WordChain,
    workers: u32,
) -> Result<u64, AllocError>
    requires some { 1 ≤ workers }
    requires most { workers ≤ 16 }
{
    let mut m = RateMatrix::packed(alloc, chain)?;
    let mut scratch = Row::reserved(alloc, m.size())?;
    reduce_rows(rt, &mut m, &mut scratch, workers, &OpenGate, 0);
    Ok(digest_of_entries(&m))
}

/// The digest of a plan's weights by rank, and after them of that of the calls that wait.
pub(crate) fn weights_digest(
    alloc: Global,
    plan: &Plan,
    chain: &WordChain,
) -> Result<u64, AllocError> {
    let m = packed_left(alloc, chain)?;
    let mut weights = Weights::reserved(alloc, m.size() + 1)?;
    solve_back(&m, &mut weights);
    if plan.line() == Line::Infinite {
        add_tail(&mut weights, plan.calls(), plan.service());
    }
    Ok(digest_of_weights(&weights))
}

fn packed_left(alloc: Global, chain: &WordChain) -> Result<RateMatrix, AllocError>
    ensures { IfOk result (λ m. m.alive ≡ 1) }
{
    let mut m = RateMatrix::packed(alloc, chain)?;
    let mut scratch = Row::reserved(alloc, m.size())?;
    reduce_packed(&mut m, &mut scratch);
    Ok(m)
}
