ghost use Rattle.std.specs.Prelude.{◌≡◌, ◌<◌, ◌≤◌, ◌++◌, IfOk, string_bytes};
ghost use Rattle.std.specs.List.{flat_map, range_with_len};
ghost use Rattle.worked_plans.specs.Widest.{wide_atom_row, wide_places, wide_trip_row, wide_unit_rows, wide_units, widest_bytes};

use std::alloc::{AllocError, Global};

/// The largest plan: twelve units, all at the first atom, and two hundred atoms, whose districts go round the units.
#[tactic(auto, unfolding(crate::specs::Widest::widest_bytes))]
pub fn widest(alloc: Global) -> Result<String, AllocError>
    ensures { IfOk result (λ text. string_bytes text ≡ widest_bytes) }
{
    let mut text = String::from_str(alloc, "rule,modified\n")?;
    push_wide_units(&mut text, 12)?;
    push_wide_places(&mut text, 200)?;
    Ok(text)
}

#[tactic(auto, unfolding(crate::specs::Widest::wide_units))]
fn push_wide_units(text: &mut String, units: u32) -> Result<(), AllocError>
    requires { units ≤ 12 }
    ensures { IfOk result (λ _. string_bytes text.new ≡ string_bytes text.old ++ wide_units units) }
{
    for n in 1..units + 1 {
        push_wide_unit(text, n)?;
    }
    Ok(())
}

fn push_wide_unit(text: &mut String, n: u32) -> Result<(), AllocError>
    ensures { IfOk result (λ _. string_bytes text.new ≡ string_bytes text.old ++ wide_unit_rows n) }
{
    write!(text, "unit,U{n},20\nat,U{n},A1,1000\n")
}

#[tactic(auto, unfolding(crate::specs::Widest::wide_places))]
fn push_wide_places(text: &mut String, atoms: u32) -> Result<(), AllocError>
    requires { atoms ≤ 200 }
    ensures { IfOk result (λ _. string_bytes text.new ≡ string_bytes text.old ++ wide_places atoms) }
{
    for place in 0..atoms {
        push_wide_atom(text, place)?;
        push_wide_trips(text, place + 1, atoms)?;
    }
    Ok(())
}

fn push_wide_atom(text: &mut String, place: u32) -> Result<(), AllocError>
    requires { place < 200 }
    ensures { IfOk result (λ _. string_bytes text.new ≡ string_bytes text.old ++ wide_atom_row place) }
{
    let (atom, unit) = (place + 1, place % 12 + 1);
    write!(text, "atom,A{atom},1,0,0,U{unit}\n")
}

fn push_wide_trips(text: &mut String, from: u32, atoms: u32) -> Result<(), AllocError>
    requires { atoms ≤ 200 }
    ensures { IfOk result (λ _. string_bytes text.new
        ≡ string_bytes text.old ++ flat_map (wide_trip_row from) (range_with_len 1 atoms)) }
{
    for to in 1..atoms + 1 {
        push_wide_trip(text, from, to)?;
    }
    Ok(())
}

fn push_wide_trip(text: &mut String, from: u32, to: u32) -> Result<(), AllocError>
    ensures { IfOk result (λ _. string_bytes text.new ≡ string_bytes text.old ++ wide_trip_row from to) }
{
    write!(text, "travel,A{from},A{to},60\n")
}
