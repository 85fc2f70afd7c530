ghost use Rattle.std.specs.Prelude.{IfOk};
ghost use Rattle.plan_solver.specs.Enclosures.{AreEnclosuresOf};

use hyper_model::{Enclosures, Plan};
use plan_solver::enclose;
use std::alloc::{AllocError, Global};

/// All measures of each plan, one plan after the other.
pub(crate) fn enclose_each(alloc: Global, plans: &[Plan]) -> Result<Vec<Enclosures>, AllocError>
    ensures { IfOk result (λ found. AreEnclosuresOf plans.now found.items) }
{
    let mut found = Vec::new(alloc);
    for k in 0..plans.len() {
        found.push(enclose(alloc, &plans[k])?)?;
    }
    Ok(found)
}
