ghost use Rattle.std.specs.Prelude.{◌≡◌, ◌<◌, ◌^◌, ℕ, All, IfOk, length};
ghost use Rattle.hyper_model.specs.Grid.{cell};
ghost use Rattle.hyper_model.specs.Plans.{atoms, units};
ghost use Rattle.day_replay.specs.Fleets.{IsWithin, answer_count};

use crate::played_list::AnsweredCall;
use hyper_model::{Plan, Table};
use std::alloc::{AllocError, Global};

/// How many times each unit was sent to calls of each atom: a row for each unit, a column for each atom.
pub(crate) fn count_dispatches(
    alloc: Global,
    plan: &Plan,
    answers: &[AnsweredCall],
) -> Result<Table, AllocError>
    requires within { All (IsWithin plan.now) answers.now }
    requires few { length answers.now < 2 ^ 32 }
    ensures rows { IfOk result (λ table. table.rows ≡ units plan.now) }
    ensures cols { IfOk result (λ table. table.cols ≡ atoms plan.now) }
    ensures counts { IfOk result (λ table. (n j : ℕ) → n < units plan.now → j < atoms plan.now
        → cell table n j ≡ answer_count answers.now n j) }
{
    let mut table = Table::of(alloc, plan.units(), plan.atoms())?;
    for answered in answers {
        let unit = usize::from(answered.send.unit);
        let atom = usize::from(answered.atom);
        table.set(unit, atom, table.get(unit, atom) + 1);
    }
    Ok(table)
}
