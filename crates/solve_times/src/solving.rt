ghost use Rattle.std.specs.Prelude.{◌≤◌};

use back_solve::solve_back;
use fixed_interval::Weights;
use rate_matrix::{OpenGate, RateMatrix, WordChain};
use state_reduction::{Row, reduce_rows};
use std::alloc::Global;
use std::io;
use std::thread::Threads;
use std::time::{Clock, Instant};

/// The nanoseconds of the elimination, and of the back substitution.
#[derive(Clone, Copy, Debug)]
pub(crate) struct Solving {
    pub(crate) elimination: u128,
    pub(crate) substitution: u128,
}

/// Puts the weights of a chain into an empty list by so many workers, and looks at the clock.
pub(crate) fn solve<R: Threads + Sync + Clock>(
    rt: &R,
    alloc: Global,
    chain: &WordChain,
    workers: u32,
) -> io::Result<(Weights, Solving)>
    requires some { 1 ≤ workers }
    requires most { workers ≤ 16 }
{
    let mut m = RateMatrix::packed(alloc, chain)?;
    let mut scratch = Row::reserved(alloc, m.size())?;
    let mut weights = Weights::reserved(alloc, m.size())?;
    let start = Instant::now(rt)?;
    reduce_rows(rt, &mut m, &mut scratch, workers, &OpenGate, 0);
    let elimination = start.elapsed(rt)?.as_nanos();
    solve_back(&m, &mut weights);
    let substitution = start.elapsed(rt)?.as_nanos().saturating_sub(elimination);
    let solving = Solving {
        elimination,
        substitution,
    };
    Ok((weights, solving))
}

/// Prints the ends of each weight, by rank.
pub(crate) fn print_weights(rt: &impl Print, weights: &Weights) -> io::Result<()> {
    for rank in 0..weights.len() {
        let weight = weights.get(rank);
        println!(rt; "weight,{},{}", weight.lo(), weight.hi())?;
    }
    Ok(())
}
