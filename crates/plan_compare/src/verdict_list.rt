use crate::Study;
use std::alloc::{AllocError, Global};
use std::marker::Model;

/// What can be said of a measure of two plans, for every solution of their equations.
#[derive(Clone, Copy, Debug, PartialEq, Eq)]
pub enum Verdict {
    /// It is less in the first plan.
    Below,
    /// It is less in the second plan.
    Above,
    /// The ends overlap or touch, and say neither.
    NotSeparated,
}

/// Verdicts in a row, in the order in which they are printed.
#[derive(Debug, Drop)]
pub struct VerdictList {
    items: Vec<Verdict>,
}

impl Model for VerdictList {
    ghost use Rattle.std.specs.Prelude.{◌-◌, vec_len, vec_capacity};
    ghost use Rattle.plan_compare.specs.Verdicts.{VerdictItems};

    ghost Value = { VerdictItems };

    ghost view = { λ a. record { items = a.items.items; spare = vec_capacity a.items - vec_len a.items } };
}

impl VerdictList {
    ghost use Rattle.std.specs.Prelude.{◌≡◌, ◌+◌, ◌*◌, ◌/◌, ◌-◌, ◌<◌, ◌≤◌, [], ◌∷◌, ◌++◌, length, IfOk, Some, slice_get, IsTrue, ◌↔◌};
    ghost use Rattle.plan_compare.specs.Verdicts.{all_pairs};

    /// An empty list with room for the verdicts of a study.
    pub fn reserved(alloc: Global, study: &Study) -> Result<VerdictList, AllocError>
        ensures items { IfOk result (λ list. list.items ≡ []) }
        ensures spare { IfOk result (λ list. list.spare ≡ length (all_pairs study.now)) }
    {
        let count = study.measures() * pair_count(study.plans());
        Ok(VerdictList {
            items: Vec::with_capacity(alloc, count)?,
        })
    }

    /// Puts a verdict after the others, into the room that was set aside.
    pub(crate) fn push(&mut self, verdict: Verdict)
        requires { 1 ≤ self.old.spare }
        ensures items { self.new.items ≡ self.old.items ++ verdict ∷ [] }
        ensures spare { self.new.spare + 1 ≡ self.old.spare }
    {
        self.items.push_reserved(verdict);
    }

    /// How many verdicts there are.
    pub fn len(&self) -> usize
        ensures { result ≡ length self.now.items }
    {
        self.items.len()
    }

    /// Whether there are none.
    pub fn is_empty(&self) -> bool
        ensures { IsTrue result ↔ (self.now.items ≡ []) }
    {
        self.items.is_empty()
    }

    /// The verdict at this place, counted from 0.
    pub fn get(&self, place: usize) -> Verdict
        requires { place < length self.now.items }
        ensures { slice_get self.now.items place ≡ Some result }
    {
        self.items[place]
    }

    /// All of them.
    pub(crate) fn as_slice(&self) -> &[Verdict]
        ensures { result.now ≡ self.now.items }
    {
        self.items.as_slice()
    }
}

ghost use Rattle.std.specs.Prelude.{◌≡◌, ◌*◌, ◌/◌, ◌-◌, ◌≤◌, ℕ, length};
ghost use Rattle.hyper_model.specs.declared.kinds.Measure as declared_measure;
ghost use Rattle.plan_compare.specs.Verdicts.{pairs_of};
ghost use Rattle.plan_compare.specs.declared.study.TheConstants.{MOST_PLANS};

/// How many pairs so many plans have.
pub(crate) fn pair_count(plans: usize) -> usize
    requires { plans ≤ MOST_PLANS }
    ensures pairs { (m : declared_measure.Measure) → result ≡ length (pairs_of plans m) }
    ensures most { result ≤ 120 }
{
    plans * plans.saturating_sub(1) / 2
}
