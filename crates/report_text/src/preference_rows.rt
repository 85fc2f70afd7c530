ghost use Rattle.std.specs.Prelude.{◌≡◌, ◌+◌, ◌<◌, ◌++◌, if◌then◌else◌, [], All, length, IfOk, codes};
ghost use Rattle.std.specs.List.{flat_map};
ghost use Rattle.hyper_model.specs.Groups.{groups_from};
ghost use Rattle.hyper_model.specs.Plans.{units, atoms, HasLists};
ghost use Rattle.report_text.specs.Labels.{atom_field};
ghost use Rattle.report_text.specs.Lists.{all_list_rows, list_row, list_rows};

use crate::labels::{push_atom, push_unit};
use hyper_model::PlanParts;
use std::alloc::AllocError;

/// Puts the rows of all atoms' preference lists after the text, in the order of the atoms.
pub fn push_lists(text: &mut Vec<u8>, parts: &PlanParts) -> Result<(), AllocError>
    requires { HasLists parts.now }
    ensures { IfOk result (λ _. text.new.items ≡ text.old.items ++ all_list_rows parts.now) }
{
    for j in 0..parts.atoms.len() {
        push_list(text, parts, j as u16)?;
    }
    Ok(())
}

fn push_list(text: &mut Vec<u8>, parts: &PlanParts, j: u16) -> Result<(), AllocError>
    requires lists { HasLists parts.now }
    requires atom { j < atoms parts.now }
    ensures { IfOk result (λ _. text.new.items ≡ text.old.items ++ list_rows parts.now j) }
{
    let lists = &parts.lists;
    let atom = usize::from(j);
    let members = lists.list(atom);
    let begins = lists.later_begins(atom);
    if lists.is_single(atom) {
        push_prefer(text, parts, j, members)
    } else {
        push_groups(text, parts, j, members, begins)
    }
}

/// Puts the row of a list whose groups have one unit each.
fn push_prefer(
    text: &mut Vec<u8>,
    parts: &PlanParts,
    j: u16,
    members: &[u8],
) -> Result<(), AllocError>
    requires atom { j < atoms parts.now }
    requires units { All (λ n. n < units parts.now) members.now }
    ensures { IfOk result (λ _.
        text.new.items ≡ text.old.items ++ list_row parts.now (codes "prefer") j members.now) }
{
    push_first(text, b"prefer", parts, j)?;
    for n in members {
        push_unit(text, parts, *n)?;
    }
    text.push(b'\n')?;
    Ok(())
}

/// Puts a row for each group. Of each unit but the first, `begins` says whether a group begins with
/// it.
fn push_groups(
    text: &mut Vec<u8>,
    parts: &PlanParts,
    j: u16,
    members: &[u8],
    begins: &[bool],
) -> Result<(), AllocError>
    requires atom { j < atoms parts.now }
    requires some { 0 < length members.now }
    requires one_each { length begins.now + 1 ≡ length members.now }
    requires units { All (λ n. n < units parts.now) members.now }
    ensures { IfOk result (λ _. text.new.items ≡ text.old.items
        ++ flat_map (list_row parts.now (codes "group") j) (groups_from members.now begins.now)) }
{
    push_first(text, b"group", parts, j)?;
    push_unit(text, parts, members[0])?;
    for place in 1..members.len() {
        push_break(text, parts, j, begins[place - 1])?;
        push_unit(text, parts, members[place])?;
    }
    text.push(b'\n')?;
    Ok(())
}

/// If a group begins, ends the row and starts the next one.
fn push_break(text: &mut Vec<u8>, parts: &PlanParts, j: u16, begins: bool) -> Result<(), AllocError>
    requires { j < atoms parts.now }
    ensures { IfOk result (λ _. text.new.items
        ≡ text.old.items
        ++ (if begins then codes "\n" ++ (codes "group" ++ atom_field parts.now j) else [])) }
{
    if !begins {
        return Ok(());
    }
    text.push(b'\n')?;
    push_first(text, b"group", parts, j)
}

/// Puts the first fields of a row: a word, and the name of atom j.
fn push_first(text: &mut Vec<u8>, word: &[u8], parts: &PlanParts, j: u16) -> Result<(), AllocError>
    requires { j < atoms parts.now }
    ensures { IfOk result (λ _.
        text.new.items ≡ text.old.items ++ (word.now ++ atom_field parts.now j)) }
{
    text.extend_from_slice(word)?;
    push_atom(text, parts, j)
}
