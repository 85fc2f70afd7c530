ghost use Rattle.std.specs.Prelude.{◌≡◌, ◌++◌, IfOk};
ghost use Rattle.hyper_model.specs.Measures.{IsInRange};
ghost use Rattle.text_lines.specs.Fractions.{IsScale};
ghost use Rattle.report_text.specs.Rows.{found_bytes, measure_row};

use crate::push_label;
use hyper_model::{Enclosed, Found, Plan, scale};
use std::alloc::AllocError;
use text_lines::push_ends;

/// Puts the row of a measure after the text: its label, and its low and high end, or `none`.
pub fn push_measure(text: &mut Vec<u8>, plan: &Plan, item: Enclosed) -> Result<(), AllocError>
    requires { IsInRange plan.now item.measure }
    ensures { IfOk result (λ _. text.new.items ≡ text.old.items ++ measure_row plan.now item) }
{
    push_label(text, plan, item.measure.word(), item.measure.subject())?;
    text.push(b',')?;
    push_found(text, item.found, scale(item.measure))?;
    text.push(b'\n')?;
    Ok(())
}

/// Puts the low and the high end of a measure of this scale after the text, or `none`.
pub fn push_found(text: &mut Vec<u8>, found: Found, scale: u32) -> Result<(), AllocError>
    requires { IsScale scale }
    ensures { IfOk result (λ _. text.new.items ≡ text.old.items ++ found_bytes scale found) }
{
    match found {
        Found::Ends(lo, hi) => push_ends(text, lo, hi, scale),
        Found::Without => text.extend_from_slice(b"none"),
    }
}
