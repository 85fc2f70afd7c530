ghost use Rattle.std.specs.Prelude.{◌≡◌, ◌++◌, IfOk};
ghost use Rattle.report_text.specs.Heads.{head_bytes, line_row, rate_rows, size_rows};

use hyper_model::{Line, Plan};
use std::alloc::AllocError;
use text_lines::push_count;

/// Puts the first six rows of a plan's report after the text: the version of the text's form, what
/// becomes of a call while all units are busy, how many units and atoms there are, and the rates of all
/// calls and of all service per period.
///
/// If memory ends, a part of them stands there; so it is with all that is put after a text.
pub fn push_head(text: &mut Vec<u8>, plan: &Plan) -> Result<(), AllocError>
    ensures { IfOk result (λ _. text.new.items ≡ text.old.items ++ head_bytes plan.now) }
{
    push_count(text, b"report", 1)?;
    push_line(text, plan.line())?;
    push_sizes(text, plan)?;
    push_rates(text, plan)
}

/// Puts the row of what becomes of a call while all units are busy after the text.
pub fn push_line(text: &mut Vec<u8>, line: Line) -> Result<(), AllocError>
    ensures { IfOk result (λ _. text.new.items ≡ text.old.items ++ line_row line) }
{
    match line {
        Line::Zero => text.extend_from_slice(b"line,zero\n"),
        Line::Infinite => text.extend_from_slice(b"line,infinite\n"),
    }
}

fn push_sizes(text: &mut Vec<u8>, plan: &Plan) -> Result<(), AllocError>
    ensures { IfOk result (λ _. text.new.items ≡ text.old.items ++ size_rows plan.now) }
{
    push_count(text, b"units", plan.units() as u64)?;
    push_count(text, b"atoms", plan.atoms() as u64)
}

fn push_rates(text: &mut Vec<u8>, plan: &Plan) -> Result<(), AllocError>
    ensures { IfOk result (λ _. text.new.items ≡ text.old.items ++ rate_rows plan.now) }
{
    push_count(text, b"calls", u64::from(plan.calls()))?;
    push_count(text, b"service", u64::from(plan.service()))
}
