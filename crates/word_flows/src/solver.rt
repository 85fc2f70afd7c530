use crate::WordFlows;
use crate::weighing::weigh_words;
use busy_words::Order;
use fixed_interval::Weights;
use hyper_model::Plan;
use std::alloc::{AllocError, Global};
use std::marker::Model;

/// The words of a plan with all rates between them, and all the memory that weighing them by a certificate takes.
///
/// Contracts see the plan.
#[derive(Drop)]
pub struct CertificateSolver<'a> {
    flows: WordFlows<'a>,
    order: Order,
    masses: Vec<u64>,
    room: Vec<u64>,
    low: Vec<u64>,
    high: Vec<u64>,
    weights: Weights,
}

impl<'a> Model for CertificateSolver<'a> {
    ghost use Rattle.hyper_model.specs.declared.parts.PlanParts.{PlanParts};
    ghost use Rattle.word_flows.specs.CertifiedWeights.{IsReady};

    ghost Value = { PlanParts };

    ghost view = { λ a. a.flows.plan.now };

    ghost invariant = { λ a. IsReady a.flows.plan.now a.order a.masses.items a.room.items a.low.items a.high.items a.weights };
}

/// The weights of a plan, in the order of its words, and whether they are certified. On the infinite line one more stands
/// after them, for all states in which a call waits.
#[derive(Debug, Drop)]
pub struct WordWeights {
    pub order: Order,
    pub weights: Weights,
    pub is_certified: bool,
}

impl<'a> CertificateSolver<'a> {
    ghost use Rattle.std.specs.Prelude.{◌≡◌, ℕ, IfOk, IsTrue, List, length};
    ghost use Rattle.hyper_model.specs.Solutions.{IsSolution};
    ghost use Rattle.busy_words.specs.WeightParts.{EnclosesSolution, IsOrderOf, places};
    ghost use Rattle.word_flows.specs.CertifiedWeights.{AreCertifiedWeights};

    /// The solver of this plan. All memory is taken here.
    pub fn reserved(alloc: Global, plan: &'a Plan) -> Result<CertificateSolver<'a>, AllocError>
        ensures { IfOk result (λ solver. solver ≡ plan.now) }
    {
        let order = Order::of(alloc, plan.units() as u8)?;
        let states = order.len();
        Ok(CertificateSolver {
            flows: WordFlows::of(alloc, plan)?,
            masses: vec![in alloc; 0; states]?,
            room: vec![in alloc; 0; states]?,
            low: vec![in alloc; 0; states]?,
            high: vec![in alloc; 0; states]?,
            weights: Weights::reserved(alloc, states + 1)?,
            order,
        })
    }

    /// Weighs the words: they enclose every solution of the plan, up to one common factor. No memory is taken.
    ///
    /// Weights that are not certified are the widest, from 0 to 1.
    pub fn weigh(self) -> WordWeights
        ensures order { IsOrderOf self.entry result.order }
        ensures one_each { length result.weights.items ≡ places self.entry }
        ensures certified { IsTrue result.is_certified → AreCertifiedWeights self.entry result.order result.weights.items }
        ensures encloses { (xs : List ℕ) (z : ℕ) → IsSolution self.entry xs z
            → EnclosesSolution self.entry result.order result.weights.items xs z }
    {
        let CertificateSolver {
            flows,
            order,
            mut masses,
            mut room,
            mut low,
            mut high,
            mut weights,
        } = self;
        let is_certified = weigh_words(
            &flows,
            &order,
            &mut masses,
            &mut room,
            &mut low,
            &mut high,
            &mut weights,
        );
        WordWeights {
            order,
            weights,
            is_certified,
        }
    }
}
