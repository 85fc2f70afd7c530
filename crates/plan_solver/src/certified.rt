ghost use Rattle.std.specs.Prelude.{IfOk, IfSome};
ghost use Rattle.hyper_model.specs.Measures.{AreInRange, ContainsSolutions};
ghost use Rattle.hyper_model.specs.Solutions.{HasSolution};
ghost use Rattle.word_flows.specs.CertifiedWeights.{AreCertifiedWeights};
ghost use Rattle.plan_solver.specs.SoundEnclosures.{IsCertifiedEnclosure};

use crate::Weighed;
use crate::measuring::measures;
use hyper_model::{Enclosures, Plan, law_accepted, law_existence};
use std::alloc::{AllocError, Global};
use word_flows::{CertificateSolver, WordWeights};

/// All measures of a plan in the order in which a report prints them, each with ends that contain its value, from weights by a
/// certificate; or `None` if no certificate is found for the plan.
///
/// The weights are guessed, and the balance equations then show that they enclose every solution. The measures are those of
/// [`enclose`](crate::enclose), and their ends are other ones. There is an error only for lack of memory.
pub fn enclose_certified(alloc: Global, plan: &Plan) -> Result<Option<Enclosures>, AllocError>
    ensures solvable { HasSolution plan.now }
    ensures exact { IfOk result (λ answer. IfSome answer (λ found. IsCertifiedEnclosure plan.now found.items)) }
    ensures contains { IfOk result (λ answer. IfSome answer (λ found. ContainsSolutions plan.now found.items)) }
    ensures in_range { IfOk result (λ answer. IfSome answer (λ found. AreInRange plan.now found.items)) }
{
    law_existence(plan);
    let WordWeights {
        order,
        weights,
        is_certified,
    } = CertificateSolver::reserved(alloc, plan)?.weigh();
    if !is_certified {
        return Ok(None);
    }
    let found = certified_enclosures(alloc, plan, &Weighed { order, weights })?;
    Ok(Some(found))
}

/// The measures with the ends that a plan's certified weights give.
fn certified_enclosures(
    alloc: Global,
    plan: &Plan,
    weighed: &Weighed,
) -> Result<Enclosures, AllocError>
    requires { AreCertifiedWeights plan.now weighed.now.order weighed.now.weights.items }
    ensures exact { IfOk result (λ found. IsCertifiedEnclosure plan.now found.items) }
    ensures contains { IfOk result (λ found. ContainsSolutions plan.now found.items) }
    ensures in_range { IfOk result (λ found. AreInRange plan.now found.items) }
{
    law_accepted(plan);
    measures(alloc, plan, weighed)
}
