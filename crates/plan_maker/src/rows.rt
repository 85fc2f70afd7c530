ghost use Rattle.std.specs.Prelude.{◌≡◌, ◌<◌, ◌≤◌, ◌++◌, IfOk};
ghost use Rattle.plan_maker.specs.Rows.{atom_row, at_row, atom_numbers, name_of, atom_name, unit_name, travel_row, travel_seconds, unit_row, location_rows};
ghost use Rattle.plan_maker.specs.declared.making.TheConstants.{MOST_MADE_UNITS};

use crate::atoms::DrawnAtom;
use std::alloc::AllocError;
use text_lines::{push_decimal, push_number_field};

/// Puts the record of unit `n` after the text.
pub(crate) fn push_unit(text: &mut Vec<u8>, n: u64) -> Result<(), AllocError>
    ensures { IfOk result (λ _. text.new.items ≡ text.old.items ++ unit_row n) }
{
    text.extend_from_slice(b"unit,")?;
    push_unit_name(text, n)?;
    text.extend_from_slice(b",20\n")
}

/// Puts the record of an atom after the text.
pub(crate) fn push_atom(text: &mut Vec<u8>, units: u64, atom: &DrawnAtom) -> Result<(), AllocError>
    requires { 0 < units }
    ensures { IfOk result (λ _. text.new.items ≡ text.old.items ++ atom_row units atom.now) }
{
    text.extend_from_slice(b"atom,")?;
    push_name(text, atom)?;
    push_numbers(text, atom)?;
    text.push(b',')?;
    push_unit_name(text, 1 + u64::from(atom.place) % units)?;
    text.push(b'\n')?;
    Ok(())
}

fn push_numbers(text: &mut Vec<u8>, atom: &DrawnAtom) -> Result<(), AllocError>
    ensures { IfOk result (λ _. text.new.items ≡ text.old.items ++ atom_numbers atom.now) }
{
    push_number_field(text, u64::from(atom.rate))?;
    push_number_field(text, u64::from(atom.x))?;
    push_number_field(text, u64::from(atom.y))
}

/// Puts the record of the travel from one atom to another after the text.
pub(crate) fn push_travel(
    text: &mut Vec<u8>,
    from: &DrawnAtom,
    to: &DrawnAtom,
) -> Result<(), AllocError>
    ensures { IfOk result (λ _. text.new.items ≡ text.old.items ++ travel_row from.now to.now) }
{
    text.extend_from_slice(b"travel,")?;
    push_name(text, from)?;
    text.push(b',')?;
    push_name(text, to)?;
    push_number_field(text, seconds_between(from, to))?;
    text.push(b'\n')?;
    Ok(())
}

fn seconds_between(from: &DrawnAtom, to: &DrawnAtom) -> u64
    ensures { result ≡ travel_seconds from.now to.now }
{
    let across = u64::from(from.x.abs_diff(to.x));
    let along = u64::from(from.y.abs_diff(to.y));
    60 + (across + along) / 10
}

/// Puts the records of where unit `n` spends its free time after the text.
pub(crate) fn push_locations(text: &mut Vec<u8>, units: u64, n: u64) -> Result<(), AllocError>
    requires units { units ≤ MOST_MADE_UNITS }
    requires unit { n ≤ units }
    ensures { IfOk result (λ _. text.new.items ≡ text.old.items ++ location_rows units n) }
{
    push_at(text, n, n, 700)?;
    push_at(text, n, n + units, 300)
}

fn push_at(text: &mut Vec<u8>, n: u64, j: u64, thousandths: u64) -> Result<(), AllocError>
    ensures { IfOk result (λ _. text.new.items ≡ text.old.items ++ at_row n j thousandths) }
{
    text.extend_from_slice(b"at,")?;
    push_unit_name(text, n)?;
    text.push(b',')?;
    push_atom_name(text, j)?;
    push_number_field(text, thousandths)?;
    text.push(b'\n')?;
    Ok(())
}

fn push_unit_name(text: &mut Vec<u8>, n: u64) -> Result<(), AllocError>
    ensures { IfOk result (λ _. text.new.items ≡ text.old.items ++ unit_name n) }
{
    text.push(b'U')?;
    push_decimal(text, n)
}

fn push_name(text: &mut Vec<u8>, atom: &DrawnAtom) -> Result<(), AllocError>
    ensures { IfOk result (λ _. text.new.items ≡ text.old.items ++ name_of atom.now) }
{
    push_atom_name(text, u64::from(atom.place) + 1)
}

fn push_atom_name(text: &mut Vec<u8>, j: u64) -> Result<(), AllocError>
    ensures { IfOk result (λ _. text.new.items ≡ text.old.items ++ atom_name j) }
{
    text.push(b'A')?;
    push_decimal(text, j)
}
