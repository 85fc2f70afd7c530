ghost use Rattle.std.specs.Prelude.{◌≡◌, ◌<◌, ◌++◌, All, IfOk};
ghost use Rattle.std.specs.List.{flat_map};
ghost use Rattle.text_lines.specs.Fields.{text_field};
ghost use Rattle.hyper_model.specs.Plans.{unit_name, units};
ghost use Rattle.pair_dispatch.specs.PairEnds.{IsPairEnclosureOf};
ghost use Rattle.pair_dispatch.specs.PairMeasures.{IsOfUnits};
ghost use Rattle.pair_dispatch.specs.PairTexts.{ends_row, label_of, pair_bytes};

use crate::{PairEnds, PairFound, PairMeasure};
use hyper_model::Plan;
use std::alloc::{AllocError, Global};
use text_lines::{push_count, push_ends, push_text_field};

/// The text of the measures that [`enclose_pairs`](crate::enclose_pairs) finds, a row each.
pub fn pair_text(
    alloc: Global,
    plan: &Plan,
    percent: u32,
    found: &PairFound,
) -> Result<Vec<u8>, AllocError>
    requires { IsPairEnclosureOf plan.now percent found.now.items }
    ensures { IfOk result (λ text. text.items ≡ pair_bytes plan.now percent found.now.items) }
{
    let mut text = Vec::new(alloc);
    push_count(&mut text, b"pairs", 1)?;
    push_count(&mut text, b"percent", u64::from(percent))?;
    push_rows(&mut text, plan, found)?;
    text.extend_from_slice(b"end\n")?;
    Ok(text)
}

fn push_rows(text: &mut Vec<u8>, plan: &Plan, found: &[PairEnds]) -> Result<(), AllocError>
    requires { All (λ e. IsOfUnits plan.now e.measure) found.now }
    ensures { IfOk result (λ _. text.new.items ≡ text.old.items ++ flat_map (ends_row plan.now) found.now) }
{
    for place in 0..found.len() {
        push_row(text, plan, found[place])?;
    }
    Ok(())
}

fn push_row(text: &mut Vec<u8>, plan: &Plan, item: PairEnds) -> Result<(), AllocError>
    requires { IsOfUnits plan.now item.measure }
    ensures { IfOk result (λ _. text.new.items ≡ text.old.items ++ ends_row plan.now item) }
{
    push_label(text, plan, item.measure)?;
    text.push(b',')?;
    push_ends(text, item.lo, item.hi, 1_000_000)?;
    text.push(b'\n')?;
    Ok(())
}

// The word of the measure, and the names of its units.
fn push_label(text: &mut Vec<u8>, plan: &Plan, measure: PairMeasure) -> Result<(), AllocError>
    requires { IsOfUnits plan.now measure }
    ensures { IfOk result (λ _. text.new.items ≡ text.old.items ++ label_of plan.now measure) }
{
    match measure {
        PairMeasure::Loss => text.extend_from_slice(b"loss"),
        PairMeasure::Short => text.extend_from_slice(b"short"),
        PairMeasure::Workload(unit) => {
            text.extend_from_slice(b"workload")?;
            push_unit(text, plan, unit)
        }
        PairMeasure::Pair(first, second) => {
            text.extend_from_slice(b"pair")?;
            push_unit(text, plan, first)?;
            push_unit(text, plan, second)
        }
    }
}

fn push_unit(text: &mut Vec<u8>, plan: &Plan, unit: u8) -> Result<(), AllocError>
    requires { unit < units plan.now }
    ensures { IfOk result (λ _. text.new.items ≡ text.old.items ++ text_field (unit_name plan.now unit)) }
{
    push_text_field(text, plan.unit(usize::from(unit)).name.text().as_bytes())
}
