ghost use Rattle.std.specs.Prelude.{◌≡◌, ◌<◌, ◌++◌, IfOk};
ghost use Rattle.hyper_model.specs.Measures.{IsInRange, IsSubjectOf};
ghost use Rattle.hyper_model.specs.Plans.{units, atoms};
ghost use Rattle.report_text.specs.Labels.{atom_field, label_bytes, label_of, subject_fields, unit_field};

use hyper_model::{Measure, Plan, PlanParts, Subject};
use std::alloc::{AllocError, Global};
use text_lines::push_text_field;

/// The fields of a measure's row before its ends: its word, and the names of its unit and atom, as in
/// `dispatch,A,P`.
pub fn label(alloc: Global, plan: &Plan, measure: Measure) -> Result<Vec<u8>, AllocError>
    requires { IsInRange plan.now measure }
    ensures { IfOk result (λ text. text.items ≡ label_bytes plan.now measure) }
{
    let mut text = Vec::new(alloc);
    push_label(&mut text, plan, measure.word(), measure.subject())?;
    Ok(text)
}

/// Puts a word after the text, and then the names of what it speaks of, each after a comma.
pub fn push_label(
    text: &mut Vec<u8>,
    plan: &Plan,
    word: &str,
    subject: Subject,
) -> Result<(), AllocError>
    requires { IsSubjectOf plan.now subject }
    ensures { IfOk result (λ _.
        text.new.items ≡ text.old.items ++ label_of plan.now word.now subject) }
{
    push_label_of(text, plan.parts(), word, subject)
}

/// Puts a word after the text, and then the names of what it speaks of in these parts of a plan.
pub fn push_label_of(
    text: &mut Vec<u8>,
    parts: &PlanParts,
    word: &str,
    subject: Subject,
) -> Result<(), AllocError>
    requires { IsSubjectOf parts.now subject }
    ensures { IfOk result (λ _.
        text.new.items ≡ text.old.items ++ label_of parts.now word.now subject) }
{
    text.extend_from_slice(word.as_bytes())?;
    push_subject(text, parts, subject)
}

fn push_subject(text: &mut Vec<u8>, parts: &PlanParts, subject: Subject) -> Result<(), AllocError>
    requires { IsSubjectOf parts.now subject }
    ensures { IfOk result (λ _. text.new.items ≡ text.old.items ++ subject_fields parts.now subject) }
{
    match subject {
        Subject::Region => Ok(()),
        Subject::Unit(n) | Subject::District(n) => push_unit(text, parts, n),
        Subject::Atom(j) => push_atom(text, parts, j),
        Subject::UnitAndAtom(n, j) => {
            push_unit(text, parts, n)?;
            push_atom(text, parts, j)
        }
    }
}

/// Puts a comma and the name of unit n.
pub(crate) fn push_unit(text: &mut Vec<u8>, parts: &PlanParts, n: u8) -> Result<(), AllocError>
    requires { n < units parts.now }
    ensures { IfOk result (λ _. text.new.items ≡ text.old.items ++ unit_field parts.now n) }
{
    push_text_field(text, parts.units.get(usize::from(n)).name.text().as_bytes())
}

/// Puts a comma and the name of atom j.
pub(crate) fn push_atom(text: &mut Vec<u8>, parts: &PlanParts, j: u16) -> Result<(), AllocError>
    requires { j < atoms parts.now }
    ensures { IfOk result (λ _. text.new.items ≡ text.old.items ++ atom_field parts.now j) }
{
    push_text_field(text, parts.atoms.get(usize::from(j)).name.text().as_bytes())
}
