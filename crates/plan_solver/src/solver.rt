use crate::weighing::Unweighed;
use busy_words::Order;
use fixed_interval::Weights;
use hyper_model::{Line, Plan};
use rate_matrix::{Gate, RateMatrix, WordChain};
use state_reduction::{Row, reduce_packed, reduce_rows};
use std::alloc::{AllocError, Global};
use std::marker::Model;
use std::thread::Threads;

/// The chain of a plan's words, with all the memory that solving it takes.
///
/// Contracts see the order of the words, the rates between them, the plan's line, and the rates of all calls and of
/// all service. Each plan that has these is the solver's.
#[derive(Debug, Drop)]
pub struct Solver {
    matrix: RateMatrix,
    row: Row,
    rest: Unweighed,
}

impl Model for Solver {
    ghost use Rattle.std.specs.Prelude.{length};
    ghost use Rattle.plan_solver.specs.Solvers.{SolverParts, IsReady};

    ghost Value = { SolverParts };

    ghost view = { λ a. record { order = a.rest.order; matrix = a.matrix; line = a.rest.line; calls = a.rest.calls; service = a.rest.service } };

    ghost invariant = { λ a. IsReady (record { order = a.rest.order; matrix = a.matrix; line = a.rest.line; calls = a.rest.calls; service = a.rest.service }) (length a.row) a.rest.weights };
}

/// The weights of a plan, in the order of its words. On the infinite line one more stands after them, for all
/// states in which a call waits.
#[derive(Debug, Drop)]
pub struct Weighed {
    pub order: Order,
    pub weights: Weights,
}

impl Solver {
    ghost use Rattle.std.specs.Prelude.{◌≤◌, IfOk};
    ghost use Rattle.plan_solver.specs.Solvers.{AreSolverWeights, EncloseSolutions, IsSolverOf};

    /// The solver of this plan. All memory is taken here.
    pub fn reserved(alloc: Global, plan: &Plan) -> Result<Solver, AllocError>
        ensures { IfOk result (IsSolverOf plan.now) }
    {
        let order = Order::of(alloc, plan.units() as u8)?;
        let matrix = RateMatrix::packed(alloc, &WordChain::of(plan, &order))?;
        let states = order.len();
        Ok(Solver {
            row: Row::reserved(alloc, states)?,
            rest: Unweighed {
                weights: Weights::reserved(alloc, states + 1)?,
                order,
                line: plan.line(),
                calls: plan.calls(),
                service: plan.service(),
            },
            matrix,
        })
    }

    /// Eliminates all words but the first, and weighs them one after the other (Grassmann, Taksar and Heyman 1985).
    ///
    /// The weights enclose every solution of the plan, up to one common factor. No memory is taken.
    pub fn weigh(self) -> Weighed
        ensures weights { AreSolverWeights self result.order result.weights.items }
        ensures encloses { EncloseSolutions self result.order result.weights.items }
    {
        let Solver {
            mut matrix,
            mut row,
            rest,
        } = self;
        reduce_packed(&mut matrix, &mut row);
        rest.weigh(&matrix)
    }

    /// Does what [`Solver::weigh`] does, the rows of each elimination by 1 to 16 workers.
    ///
    /// Each entry that changes is computed by the gate, which is given the place of the plan among others. Neither
    /// the number of workers nor the gate has a part in the weights.
    pub fn weigh_with<R: Threads + Sync, G: Gate + Sync>(
        self,
        rt: &R,
        workers: u32,
        gate: &G,
        place: usize,
    ) -> Weighed
        requires some { 1 ≤ workers }
        requires most { workers ≤ 16 }
        ensures weights { AreSolverWeights self result.order result.weights.items }
        ensures encloses { EncloseSolutions self result.order result.weights.items }
    {
        let Solver {
            mut matrix,
            mut row,
            rest,
        } = self;
        reduce_rows(rt, &mut matrix, &mut row, workers, gate, place);
        rest.weigh(&matrix)
    }
}
