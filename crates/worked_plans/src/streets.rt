ghost use Rattle.std.specs.Prelude.{◌≡◌, ◌<◌, ◌≤◌, ◌++◌, IfOk, string_bytes};
ghost use Rattle.std.specs.List.{flat_map, range_with_len};
ghost use Rattle.worked_plans.specs.Streets.{street_atom_row, street_bytes, street_places, street_trip_row, street_unit_rows, street_units};

use std::alloc::{AllocError, Global};

/// So many units and two hundred atoms along a street, each with a call in a period. Each unit is at the atom of its number,
/// at the beginning of the street.
#[tactic(auto, unfolding(crate::specs::Streets::street_bytes))]
pub fn street(alloc: Global, units: u8) -> Result<String, AllocError>
    ensures { IfOk result (λ text. string_bytes text ≡ street_bytes units) }
{
    let mut text = String::from_str(alloc, "rule,modified\n")?;
    push_street_units(&mut text, u32::from(units))?;
    push_street_places(&mut text, 200)?;
    Ok(text)
}

#[tactic(auto, unfolding(crate::specs::Streets::street_units))]
fn push_street_units(text: &mut String, units: u32) -> Result<(), AllocError>
    requires { units ≤ 255 }
    ensures { IfOk result (λ _. string_bytes text.new ≡ string_bytes text.old ++ street_units units) }
{
    for n in 1..units + 1 {
        push_street_unit(text, n)?;
    }
    Ok(())
}

fn push_street_unit(text: &mut String, n: u32) -> Result<(), AllocError>
    ensures { IfOk result (λ _. string_bytes text.new ≡ string_bytes text.old ++ street_unit_rows n) }
{
    write!(text, "unit,U{n},150\nat,U{n},A{n},1000\n")
}

#[tactic(auto, unfolding(crate::specs::Streets::street_places))]
fn push_street_places(text: &mut String, atoms: u32) -> Result<(), AllocError>
    requires { atoms ≤ 200 }
    ensures { IfOk result (λ _. string_bytes text.new ≡ string_bytes text.old ++ street_places atoms) }
{
    for place in 0..atoms {
        push_street_atom(text, place)?;
        push_street_trips(text, place, atoms)?;
    }
    Ok(())
}

fn push_street_atom(text: &mut String, place: u32) -> Result<(), AllocError>
    requires { place < 200 }
    ensures { IfOk result (λ _. string_bytes text.new ≡ string_bytes text.old ++ street_atom_row place) }
{
    let atom = place + 1;
    write!(text, "atom,A{atom},1,{place}00,0,U1\n")
}

fn push_street_trips(text: &mut String, from: u32, atoms: u32) -> Result<(), AllocError>
    requires from { from < 200 }
    requires atoms { atoms ≤ 200 }
    ensures { IfOk result (λ _. string_bytes text.new
        ≡ string_bytes text.old ++ flat_map (street_trip_row from) (range_with_len 0 atoms)) }
{
    for to in 0..atoms {
        push_street_trip(text, from, to)?;
    }
    Ok(())
}

fn push_street_trip(text: &mut String, from: u32, to: u32) -> Result<(), AllocError>
    requires from { from < 200 }
    requires to { to < 200 }
    ensures { IfOk result (λ _. string_bytes text.new ≡ string_bytes text.old ++ street_trip_row from to) }
{
    let (start, end, seconds) = (from + 1, to + 1, 30 + 7 * from.abs_diff(to));
    write!(text, "travel,A{start},A{end},{seconds}\n")
}
