ghost use Rattle.plan_text.specs.Steps.{Refuses};
ghost use Rattle.atom_table.specs.Refusals.{none_refusal, sum_refusal};

use crate::{AtomRefusal, MOST_RATE_SUM};
use hyper_model::{Atoms, Units};

/// Refuses a plan without units or without atoms.
pub(crate) fn check_some(units: &Units, atoms: &Atoms) -> Result<(), AtomRefusal>
    ensures { Refuses result (none_refusal units.now atoms.now) }
{
    if units.is_empty() {
        return Err(AtomRefusal::NoUnits);
    }
    if atoms.is_empty() {
        return Err(AtomRefusal::NoAtoms);
    }
    Ok(())
}

/// Refuses a plan without calls, or with too many calls or too much service in all.
pub(crate) fn check_sums(units: &Units, atoms: &Atoms) -> Result<(), AtomRefusal>
    ensures { Refuses result (sum_refusal units.now atoms.now) }
{
    let calls = atoms.calls();
    if calls == 0 {
        return Err(AtomRefusal::NoCalls);
    }
    if calls > MOST_RATE_SUM {
        return Err(AtomRefusal::RateSum(calls));
    }
    let service = units.service();
    if service > MOST_RATE_SUM {
        return Err(AtomRefusal::ServiceSum(service));
    }
    Ok(())
}
