ghost use Rattle.std.specs.Prelude.{◌≡◌, ◌<◌, ◌≤◌, ◌++◌, IfOk, string_bytes};
ghost use Rattle.std.specs.List.{flat_map, range_with_len};
ghost use Rattle.worked_plans.specs.Grids.{at_row, column_unit_rows, column_units, grid_atom_row, grid_bytes, grid_places, grid_trip_row};

use std::alloc::{AllocError, Global};

/// Eight units and forty atoms on a grid, as a spreadsheet writes them: after a byte order mark, each line filled with
/// commas to nine fields, and ended by a carriage return and a line feed. The calls of a column's atoms ask for the unit
/// of the column first.
#[tactic(auto, unfolding(crate::specs::Grids::grid_bytes))]
pub fn grid(alloc: Global) -> Result<String, AllocError>
    ensures { IfOk result (λ text. string_bytes text ≡ grid_bytes) }
{
    let mut text = String::from_str(
        alloc,
        "\u{FEFF}version,1,,,,,,,\r\nline,zero,,,,,,,\r\nrule,modified,,,,,,,\r\nperiod,432000,,,,,,,\r\n",
    )?;
    push_column_units(&mut text, 8)?;
    push_grid_places(&mut text, 40)?;
    Ok(text)
}

#[tactic(auto, unfolding(crate::specs::Grids::column_units))]
fn push_column_units(text: &mut String, units: u32) -> Result<(), AllocError>
    requires { units ≤ 8 }
    ensures { IfOk result (λ _. string_bytes text.new ≡ string_bytes text.old ++ column_units units) }
{
    for unit in 1..units + 1 {
        push_column_unit(text, unit)?;
    }
    Ok(())
}

// The unit of a column, which spends most of its free time at the middle atom.
fn push_column_unit(text: &mut String, unit: u32) -> Result<(), AllocError>
    requires { unit ≤ 8 }
    ensures { IfOk result (λ _. string_bytes text.new ≡ string_bytes text.old ++ column_unit_rows unit) }
{
    write!(text, "unit,M{unit},60,,,,,,\r\n")?;
    push_at(text, unit, unit + 16, 600)?;
    push_at(text, unit, unit + 8, 200)?;
    push_at(text, unit, unit + 24, 200)
}

fn push_at(text: &mut String, unit: u32, atom: u32, thousandths: u32) -> Result<(), AllocError>
    ensures { IfOk result (λ _. string_bytes text.new ≡ string_bytes text.old ++ at_row unit atom thousandths) }
{
    write!(text, "at,M{unit},Z{atom},{thousandths},,,,,\r\n")
}

#[tactic(auto, unfolding(crate::specs::Grids::grid_places))]
fn push_grid_places(text: &mut String, atoms: u32) -> Result<(), AllocError>
    requires { atoms ≤ 40 }
    ensures { IfOk result (λ _. string_bytes text.new ≡ string_bytes text.old ++ grid_places atoms) }
{
    for place in 0..atoms {
        push_grid_atom(text, place)?;
        push_grid_trips(text, place, atoms)?;
    }
    Ok(())
}

fn push_grid_atom(text: &mut String, place: u32) -> Result<(), AllocError>
    requires { place < 40 }
    ensures { IfOk result (λ _. string_bytes text.new ≡ string_bytes text.old ++ grid_atom_row place) }
{
    let (column, row) = (place % 8, place / 8);
    let (atom, unit) = (place + 1, column + 1);
    write!(text, "atom,Z{atom},6,{column}000,{row}000,M{unit},,,\r\n")
}

fn push_grid_trips(text: &mut String, from: u32, atoms: u32) -> Result<(), AllocError>
    requires from { from < 40 }
    requires atoms { atoms ≤ 40 }
    ensures { IfOk result (λ _. string_bytes text.new
        ≡ string_bytes text.old ++ flat_map (grid_trip_row from) (range_with_len 0 atoms)) }
{
    for to in 0..atoms {
        push_grid_trip(text, from, to)?;
    }
    Ok(())
}

fn push_grid_trip(text: &mut String, from: u32, to: u32) -> Result<(), AllocError>
    requires from { from < 40 }
    requires to { to < 40 }
    ensures { IfOk result (λ _. string_bytes text.new ≡ string_bytes text.old ++ grid_trip_row from to) }
{
    let blocks = (from % 8).abs_diff(to % 8) + (from / 8).abs_diff(to / 8);
    let (start, end, seconds) = (from + 1, to + 1, 120 + 60 * blocks);
    write!(text, "travel,Z{start},Z{end},{seconds},,,,,\r\n")
}
