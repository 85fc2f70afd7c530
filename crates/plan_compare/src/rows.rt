ghost use Rattle.std.specs.Prelude.{◌≡◌, ◌<◌, ◌++◌, IfOk};
ghost use Rattle.plan_compare.specs.Comparisons as spec;
ghost use Rattle.plan_compare.specs.Comparisons.{place_field, value_row, verdict_row};
ghost use Rattle.plan_compare.specs.declared.study.TheConstants.{MOST_PLANS};

use crate::Verdict;
use hyper_model::{Measure, Value, scale};
use std::alloc::AllocError;
use text_lines::{push_ends, push_number_field, push_text_field};

/// Puts the row of a measure's ends in the plan at this place, counted from 0.
pub(crate) fn push_value(
    text: &mut Vec<u8>,
    measure: Measure,
    place: usize,
    value: Value,
) -> Result<(), AllocError>
    requires { place < MOST_PLANS }
    ensures { IfOk result (λ _. text.new.items ≡ text.old.items ++ value_row measure place value) }
{
    text.extend_from_slice(b"value")?;
    push_text_field(text, measure.word().as_bytes())?;
    push_place(text, place)?;
    text.push(b',')?;
    push_ends(text, value.lo, value.hi, scale(measure))?;
    text.push(b'\n')?;
    Ok(())
}

/// Puts the row of a verdict on the plans at these places, counted from 0.
pub(crate) fn push_verdict(
    text: &mut Vec<u8>,
    measure: Measure,
    first: usize,
    second: usize,
    verdict: Verdict,
) -> Result<(), AllocError>
    requires first { first < MOST_PLANS }
    requires second { second < MOST_PLANS }
    ensures { IfOk result (λ _. text.new.items
        ≡ text.old.items ++ verdict_row (record { measure = measure; first = first; second = second }) verdict) }
{
    text.extend_from_slice(b"verdict")?;
    push_text_field(text, measure.word().as_bytes())?;
    push_place(text, first)?;
    push_place(text, second)?;
    push_text_field(text, verdict_name(verdict))?;
    text.push(b'\n')?;
    Ok(())
}

fn verdict_name(verdict: Verdict) -> &'static [u8]
    ensures { result.now ≡ spec.verdict_name verdict }
{
    match verdict {
        Verdict::Below => b"below",
        Verdict::Above => b"above",
        Verdict::NotSeparated => b"not separated",
    }
}

/// Puts a comma and a place, which counts from 1 in the text.
fn push_place(text: &mut Vec<u8>, place: usize) -> Result<(), AllocError>
    requires { place < MOST_PLANS }
    ensures { IfOk result (λ _. text.new.items ≡ text.old.items ++ place_field place) }
{
    push_number_field(text, place as u64 + 1)
}
