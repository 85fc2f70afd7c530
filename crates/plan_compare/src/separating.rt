ghost use Rattle.std.specs.Prelude.{◌≡◌, ◌+◌, ◌-◌, ◌<◌, ◌≤◌, [], ◌++◌, length, map};
ghost use Rattle.plan_compare.specs.Truth.{AreTrue, ContainsPlans};
ghost use Rattle.plan_compare.specs.Verdicts as spec;
ghost use Rattle.plan_compare.specs.Verdicts.{all_pairs, pairs_from, pairs_of, verdict_of, verdicts_of};

use crate::values::value_at;
use crate::{Study, Verdict, VerdictList};
use hyper_model::{Enclosures, Measure, Value};

/// The verdicts of a study over the lists of its plans' measures, in the order of the plans.
///
/// For each measure each two plans are compared, by the place of the first and then by that of the second. If the
/// lists are those of accepted plans, each pair of ends contains its measure for every solution of the plan's balance
/// equations, and a verdict holds for whichever solutions of the two plans.
pub fn verdicts(study: &Study, found: &[Enclosures], out: &mut VerdictList)
    requires one_each { length found.now ≡ length study.now.plans }
    requires empty { out.old.items ≡ [] }
    requires room { length (all_pairs study.now) ≤ out.old.spare }
    ensures exact { out.new.items ≡ verdicts_of study.now found.now }
    ensures contained { ContainsPlans study.now found.now }
    ensures proved { AreTrue study.now found.now out.new.items }
{
    for k in 0..study.measures() {
        push_verdicts(out, found, study.measure(k));
    }
}

/// Puts the verdicts on a measure after the others.
fn push_verdicts(out: &mut VerdictList, found: &[Enclosures], measure: Measure)
    requires { length (pairs_of (length found.now) measure) ≤ out.old.spare }
    ensures items { out.new.items
        ≡ out.old.items ++ map (verdict_of found.now) (pairs_of (length found.now) measure) }
    ensures spare { out.new.spare + length (pairs_of (length found.now) measure) ≡ out.old.spare }
{
    for a in 0..found.len() {
        push_verdicts_from(out, found, measure, a);
    }
}

/// Puts the verdicts on the plan at place `a` and each after it.
fn push_verdicts_from(out: &mut VerdictList, found: &[Enclosures], measure: Measure, a: usize)
    requires place { a < length found.now }
    requires room { length found.now - (a + 1) ≤ out.old.spare }
    ensures items { out.new.items
        ≡ out.old.items ++ map (verdict_of found.now) (pairs_from (length found.now) measure a) }
    ensures spare { out.new.spare + (length found.now - (a + 1)) ≡ out.old.spare }
{
    let first = value_at(found, measure, a);
    for b in a + 1..found.len() {
        out.push(verdict_on(first, value_at(found, measure, b)));
    }
}

/// What the ends of a measure in two plans say.
fn verdict_on(first: Value, second: Value) -> Verdict
    ensures { result ≡ spec.verdict_on first second }
{
    if first.hi < second.lo {
        Verdict::Below
    } else if second.hi < first.lo {
        Verdict::Above
    } else {
        Verdict::NotSeparated
    }
}
