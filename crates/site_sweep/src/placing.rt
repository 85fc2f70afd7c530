ghost use Rattle.std.specs.Prelude.{◌≡◌, ◌<◌, ◌==◌, if◌then◌else◌, IfOk, length};
ghost use Rattle.hyper_model.specs.Plans.{atoms, units};
ghost use Rattle.hyper_model.specs.declared.TheConstants.{WHOLE_TIME as whole};
ghost use Rattle.site_sweep.specs.Placed as spec;

use hyper_model::{Lists, Plan, PlanParts, Rule, Table, WHOLE_TIME};
use preference_rules::centred;
use std::alloc::{AllocError, Global};

/// The plan with this unit, while it is free, always at this atom.
///
/// By the rules `Strict` and `Modified` the preference lists follow anew from where the units then are; by the rule
/// `Given` they stay. All else stays.
pub fn placed(alloc: Global, plan: &Plan, unit: u8, atom: u16) -> Result<Plan, AllocError>
    requires unit { unit < units plan.now }
    requires atom { atom < atoms plan.now }
    ensures { IfOk result (λ moved. moved ≡ spec.placed plan.now unit atom) }
{
    let parts = plan.parts();
    let located = located_wholly(alloc, &parts.located, usize::from(unit), usize::from(atom))?;
    let lists = lists_by(alloc, parts, &located)?;
    let moved = parts_with(alloc, parts, lists, located)?;
    Ok(Plan::of_accepted(moved))
}

/// These parts once more, but with these preference lists and places of units.
fn parts_with(
    alloc: Global,
    parts: &PlanParts,
    lists: Lists,
    located: Table,
) -> Result<PlanParts, AllocError>
    ensures { IfOk result (λ moved. moved ≡ record parts.now { lists = lists; located = located }) }
{
    Ok(PlanParts {
        line: parts.line,
        rule: parts.rule,
        period: parts.period,
        units: parts.units.copied(alloc)?,
        atoms: parts.atoms.copied(alloc)?,
        lists,
        located,
        travel: parts.travel.copied(alloc)?,
    })
}

/// The thousandths of all units, with those of this unit wholly at this atom.
fn located_wholly(
    alloc: Global,
    located: &Table,
    unit: usize,
    atom: usize,
) -> Result<Table, AllocError>
    requires { unit < located.now.rows }
    ensures { IfOk result (λ table. table ≡ spec.located_wholly located.now unit atom) }
{
    let mut table = located.copied(alloc)?;
    put_wholly(&mut table, unit, atom);
    Ok(table)
}

fn put_wholly(table: &mut Table, unit: usize, atom: usize)
    requires { unit < table.old.rows }
    ensures { table.new ≡ spec.located_wholly table.old unit atom }
{
    for k in 0..table.cols() {
        table.set(unit, k, thousandths_at(k, atom));
    }
}

/// The thousandths at atom k of a unit that is wholly at an atom.
fn thousandths_at(k: usize, atom: usize) -> u32
    ensures { result ≡ (if k == atom then whole else 0) }
{
    if k == atom { WHOLE_TIME } else { 0 }
}

/// The preference lists by the plan's rule, if the units are at these places.
fn lists_by(alloc: Global, parts: &PlanParts, located: &Table) -> Result<Lists, AllocError>
    requires units { located.now.rows ≡ length parts.now.units }
    requires atoms { located.now.cols ≡ length parts.now.atoms }
    ensures { IfOk result (λ lists. lists ≡ spec.lists_by parts.now.rule parts.now located.now) }
{
    match parts.rule {
        Rule::Given => parts.lists.copied(alloc),
        Rule::Strict => centred(alloc, Rule::Strict, &parts.units, &parts.atoms, located),
        Rule::Modified => centred(alloc, Rule::Modified, &parts.units, &parts.atoms, located),
    }
}
