ghost use Rattle.std.specs.Prelude.{◌≡◌, ◌+◌, ◌≤◌, []};
ghost use Rattle.hyper_model.specs.declared.parts.PlanParts.{PlanParts};
ghost use Rattle.hyper_model.specs.Plans.{IsStable};
ghost use Rattle.rate_matrix.specs.Bands.{BandedRates};
ghost use Rattle.state_reduction.specs.Reductions.{IsReduced};
ghost use Rattle.plan_solver.specs.PlanWeights.{WeighPlan};
ghost use Rattle.plan_solver.specs.Solvers.{AreFilled, IsSolverOf};

use crate::Weighed;
use back_solve::solve_back;
use busy_words::Order;
use fixed_interval::Weights;
use hyper_model::Line;
use queue_tail::add_tail;
use rate_matrix::RateMatrix;

/// The room for a plan's weights, and what they follow from besides the rates between its words.
#[derive(Debug, Drop)]
pub(crate) struct Unweighed {
    pub order: Order,
    pub weights: Weights,
    pub line: Line,
    pub calls: u32,
    pub service: u32,
}

impl Unweighed {
    /// The weights, from the matrix in which all words but the first are eliminated.
    pub(crate) fn weigh(self, matrix: &RateMatrix) -> Weighed
        requires reduced { matrix.now.alive ≡ 1 }
        requires empty { self.weights.items ≡ [] }
        requires room { matrix.now.size + 1 ≤ self.weights.spare }
        requires stable { IsStable self.line self.calls self.service }
        ensures { (p : PlanParts) (m : BandedRates) → IsReduced m matrix.now
            → IsSolverOf p (record { order = self.order; matrix = m; line = self.line; calls = self.calls; service = self.service })
            → WeighPlan p result.order result.weights.items }
    {
        let Unweighed {
            order,
            mut weights,
            line,
            calls,
            service,
        } = self;
        fill(&mut weights, matrix, line, calls, service);
        Weighed { order, weights }
    }
}

/// Weighs the states of an eliminated chain, and on the infinite line the calls that wait as well.
fn fill(weights: &mut Weights, matrix: &RateMatrix, line: Line, calls: u32, service: u32)
    requires reduced { matrix.now.alive ≡ 1 }
    requires empty { weights.old.items ≡ [] }
    requires room { matrix.now.size + 1 ≤ weights.old.spare }
    requires stable { IsStable line calls service }
    ensures { AreFilled line calls service matrix.now weights.new.items }
{
    let _size = matrix.size();
    solve_back(matrix, weights);
    if line == Line::Infinite {
        add_tail(weights, calls, service);
    }
}
