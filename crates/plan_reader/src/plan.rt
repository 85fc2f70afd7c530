ghost use Rattle.std.specs.Prelude.{◌≡◌, ◌<◌, ℕ, List, length, IfOk, Ok, Err, None};
ghost use Rattle.hyper_model.specs.Plans.{IsAccepted};
ghost use Rattle.hyper_model.specs.declared.parts.PlanParts.{PlanParts};
ghost use Rattle.plan_text.specs.Form.{IsInForm};
ghost use Rattle.plan_text.specs.Steps.{Gives, Refuses};
ghost use Rattle.plan_text.specs.declared.record.Record.{Record};
ghost use Rattle.plan_reader.specs.Conditions.{IsFirstCondition, condition_at, conditions, parts_in};
ghost use Rattle.plan_reader.specs.declared.refusal.PlanRefusal.{PlanRefusal};
ghost use Rattle.plan_reader.specs.PlanOf as spec;
ghost use Rattle.plan_reader.specs.PlanOf.{AreWholeParts, parts_given, plan_of, stable_refusal};

use crate::PlanRefusal;
use crate::settings::read_settings;
use atom_table::AtomTable;
use hyper_model::{Line, Plan, PlanParts};
use plan_text::{AddedKind, Record, records};
use preference_rules::preferences;
use std::alloc::Global;
use travel_table::TravelTable;
use unit_location::Locations;

/// The plan of a text.
///
/// The text is read in steps, and the refusal is that of the first step that refuses: its records, their settings, the
/// units and atoms, the travel times, the locations, the preference lists, and last, if calls wait, that they are fewer than
/// the units can serve. The plan is accepted.
#[tactic(auto, unfolding(crate::specs::PlanOf::plan_of))]
pub fn read_plan(alloc: Global, bytes: &[u8]) -> Result<Plan, PlanRefusal>
    ensures plan { Gives PlanRefusal.NoMemory (λ plan. plan) result (plan_of bytes.now) }
    ensures accepted { IfOk result (λ plan. IsAccepted plan) }
{
    let records = records(alloc, bytes)?;
    plan_in(alloc, &records)
}

/// The plan of the records of a text.
#[tactic(auto, unfolding(crate::specs::PlanOf::plan_in))]
fn plan_in(alloc: Global, records: &[Record]) -> Result<Plan, PlanRefusal>
    requires { IsInForm records.now }
    ensures plan { Gives PlanRefusal.NoMemory (λ plan. plan) result (spec.plan_in records.now) }
    ensures accepted { IfOk result (λ plan. IsAccepted plan) }
{
    let parts = read_parts(alloc, AddedKind::Group, records)?;
    check_stable(parts.line, parts.atoms.calls(), parts.units.service())?;
    Ok(Plan::of_accepted(parts))
}

/// The parts of a plan that the records of a text give, to which this kind of record can be added: all of the steps of
/// [`read_plan`] after the records, but the last.
#[tactic(auto, unfolding(crate::specs::PlanOf::parts_given))]
pub(crate) fn read_parts(
    alloc: Global,
    added: AddedKind,
    records: &[Record],
) -> Result<PlanParts, PlanRefusal>
    requires { IsInForm records.now }
    ensures parts { Gives PlanRefusal.NoMemory (λ parts. parts) result (parts_given added records.now) }
    ensures whole { IfOk result (λ parts. AreWholeParts parts) }
{
    let settings = read_settings(records, added)?;
    let names = AtomTable::of(alloc, records)?;
    let travel = TravelTable::of(alloc, &names, records)?;
    let located = Locations::of(alloc, &names, records)?;
    let lists = preferences(alloc, settings.rule, &names, &located, records)?;
    let (units, atoms) = names.into_parts();
    Ok(PlanParts {
        line: settings.line,
        rule: settings.rule,
        period: settings.period,
        units,
        atoms,
        lists,
        located: located.into_table(),
        travel: travel.into_table(),
    })
}

/// Refuses calls that wait if they are not fewer than can be served.
pub(crate) fn check_stable(line: Line, calls: u64, service: u64) -> Result<(), PlanRefusal>
    ensures { Refuses result (stable_refusal line calls service) }
{
    match line {
        Line::Zero => Ok(()),
        Line::Infinite => {
            if calls < service {
                Ok(())
            } else {
                Err(PlanRefusal::NotStable(calls, service))
            }
        }
    }
}

/// The plan of a text, if it has one, is accepted.
pub fn law_plan()
    ensures { (bytes : List ℕ) (plan : PlanParts) → plan_of bytes ≡ Ok plan → IsAccepted plan }
{}

/// The refusal of records is that of the first of all conditions that holds, and records for which none holds give the
/// plan of their parts.
pub fn law_first_condition()
    ensures first { (records : List Record) (e : PlanRefusal) → spec.plan_in records ≡ Err e
        → (place : ℕ) × IsFirstCondition conditions records place e }
    ensures only { (records : List Record) (place : ℕ) (e : PlanRefusal) → IsFirstCondition conditions records place e
        → spec.plan_in records ≡ Err e }
    ensures none { (records : List Record) → ((k : ℕ) → k < length conditions → condition_at conditions k records ≡ None)
        → spec.plan_in records ≡ Ok (parts_in records) }
{}
