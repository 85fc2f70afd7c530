ghost use Rattle.std.specs.Prelude.{◌≡◌, List, ℕ, IfOk, length};
ghost use Rattle.fixed_interval.specs.WeightList.{EnclosesAll};
ghost use Rattle.hyper_model.specs.Tables.{IsTableSolution};
ghost use Rattle.pair_dispatch.specs.ChainWeights.{AreChainWeights};

use back_solve::solve_back;
use fixed_interval::Weights;
use rate_matrix::{Chain, RateMatrix};
use state_reduction::{Row, reduce};
use std::alloc::{AllocError, Global};

/// The weights of a chain's states, which enclose every solution of its balance up to one common factor.
pub(crate) fn weigh_chain<C: Chain>(alloc: Global, chain: &C) -> Result<Weights, AllocError>
    ensures weights { IfOk result (λ weights.
        AreChainWeights (C.states chain.now) (C.most chain.now) (C.rates chain.now) weights.items) }
    ensures count { IfOk result (λ weights. length weights.items ≡ C.states chain.now) }
    ensures encloses { IfOk result (λ weights. (ys : List ℕ)
        → IsTableSolution (C.states chain.now) (C.rates chain.now) ys → EnclosesAll weights.items ys) }
{
    let size = chain.size();
    let _top = chain.top();
    let mut matrix = RateMatrix::dense(alloc, chain)?;
    let mut row = Row::reserved(alloc, size)?;
    let mut weights = Weights::reserved(alloc, size)?;
    reduce(&mut matrix, &mut row);
    solve_back(&matrix, &mut weights);
    Ok(weights)
}
