ghost use Rattle.std.specs.Prelude.{◌≡◌, ◌<◌, ◌≤◌, ℕ, List, All, IfOk, OnOk, drop, length, replicate};
ghost use Rattle.plan_text.specs.Steps.{Checks, Gives, Refuses};
ghost use Rattle.atom_table.specs.Entries.{atom_names, unit_names};
ghost use Rattle.hyper_model.specs.Groups.{groups_from};
ghost use Rattle.preference_rules.specs.Drafts.{IsFilled, again_refusal, draft_rows, drafts_of, drafts_refusal, no_draft, with_record};
ghost use Rattle.preference_rules.specs.Given.{asked_records_refusal, given_lists_of, twice_records_refusal};
ghost use Rattle.preference_rules.specs.Lists.{row_of_groups};

use crate::ListRefusal;
use crate::draft::Draft;
use crate::rows::put_row;
use atom_table::AtomTable;
use hyper_model::{Lists, MOST_ATOMS, MOST_UNITS};
use plan_text::Record;
use std::alloc::{AllocError, Global};

/// The lists that the records give.
pub(crate) fn given_lists(
    alloc: Global,
    names: &AtomTable,
    records: &[Record],
) -> Result<Lists, ListRefusal>
    ensures { Gives ListRefusal.NoMemory (λ lists. lists) result
        (given_lists_of (unit_names names.now.units) (atom_names names.now.atoms) records.now) }
{
    let drafts = read_drafts(alloc, names, records)?;
    let units = names.units().len();
    check_drafts(&drafts, units)?;
    let lists = draft_lists(alloc, &drafts, units)?;
    Ok(lists)
}

/// What the records give for each atom.
fn read_drafts(
    alloc: Global,
    names: &AtomTable,
    records: &[Record],
) -> Result<Vec<Draft>, ListRefusal>
    ensures refusal { Checks ListRefusal.NoMemory result (twice_records_refusal (atom_names names.now.atoms) records.now) }
    ensures drafts { IfOk result (λ drafts.
        drafts.items ≡ drafts_of (unit_names names.now.units) (atom_names names.now.atoms) records.now) }
    ensures most { IfOk result (λ drafts. length drafts.items ≤ MOST_ATOMS) }
{
    let mut drafts = no_drafts(alloc, names.atoms().len())?;
    for item in records {
        take_record(names, item, &mut drafts)?;
    }
    Ok(drafts)
}

fn no_drafts(alloc: Global, atoms: usize) -> Result<Vec<Draft>, AllocError>
    ensures { IfOk result (λ drafts. drafts.items ≡ replicate atoms no_draft) }
{
    let mut drafts = Vec::new(alloc);
    for _j in 0..atoms {
        drafts.push(Draft::new(alloc))?;
    }
    Ok(drafts)
}

fn take_record(names: &AtomTable, item: &Record, drafts: &mut Vec<Draft>) -> Result<(), ListRefusal>
    requires { length drafts.old.items ≡ length names.now.atoms }
    ensures refusal { Checks ListRefusal.NoMemory result (again_refusal (atom_names names.now.atoms) drafts.old.items item.now) }
    ensures taken { OnOk result (drafts.new.items
        ≡ with_record (unit_names names.now.units) (atom_names names.now.atoms) drafts.old.items item.now) }
{
    match item {
        Record::Prefer { at, atom, units } => {
            let draft = &mut drafts[names.atom_place(atom)];
            draft.take_order(*at, names, units)
        }
        Record::Group { at, atom, units } => {
            let draft = &mut drafts[names.atom_place(atom)];
            draft.take_group(*at, names, units)
        }
        Record::Version { .. }
        | Record::LineIs { .. }
        | Record::RuleIs { .. }
        | Record::Period { .. }
        | Record::UnitIs { .. }
        | Record::AtomIs { .. }
        | Record::Travel { .. }
        | Record::Located { .. }
        | Record::Crews { .. } => Ok(()),
    }
}

/// Refuses the first list that no record is for, or that does not hold each unit once.
fn check_drafts(drafts: &Vec<Draft>, units: usize) -> Result<(), ListRefusal>
    requires { length drafts.now.items ≤ MOST_ATOMS }
    ensures { Refuses result (drafts_refusal units drafts.now.items) }
{
    for j in 0..drafts.len() {
        let draft = &drafts[j];
        draft.check(j, units)?;
    }
    Ok(())
}

/// The lists of the drafts, each of which holds so many units.
fn draft_lists(alloc: Global, drafts: &Vec<Draft>, units: usize) -> Result<Lists, AllocError>
    requires units { units ≤ MOST_UNITS }
    requires atoms { length drafts.now.items ≤ MOST_ATOMS }
    requires rows { All (IsFilled units) drafts.now.items }
    ensures { IfOk result (λ lists. lists ≡ draft_rows units drafts.now.items) }
{
    let mut lists = Lists::of(alloc, drafts.len(), units)?;
    for j in 0..drafts.len() {
        let draft = &drafts[j];
        put_row(&mut lists, j, draft.members(), draft.begins());
    }
    Ok(lists)
}

/// Refuses the first record that gives a list.
pub(crate) fn refuse_lists(records: &[Record]) -> Result<(), ListRefusal>
    ensures { Refuses result (asked_records_refusal records.now) }
{
    for item in records {
        if let Record::Prefer { at, .. } | Record::Group { at, .. } = item {
            return Err(ListRefusal::ListNotAsked(u64::from(*at)));
        }
    }
    Ok(())
}

/// The groups of a list that was made of groups are those groups.
pub fn law_given_groups()
    ensures { (groups : List (List ℕ)) → All (λ group. 0 < length group) groups
        → groups_from (row_of_groups groups).members (drop 1 (row_of_groups groups).begins) ≡ groups }
{}
