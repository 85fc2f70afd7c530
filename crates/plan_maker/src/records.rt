ghost use Rattle.std.specs.Prelude.{◌≡◌, ◌<◌, ◌≤◌, ◌++◌, IfOk};
ghost use Rattle.std.specs.List.{flat_map};
ghost use Rattle.plan_maker.specs.Rows.{head_rows, travel_row};
ghost use Rattle.plan_maker.specs.Plans.{all_location_rows, atom_rows, travel_rows, unit_rows};
ghost use Rattle.plan_maker.specs.declared.making.TheConstants.{MOST_MADE_UNITS};

use crate::atoms::DrawnAtom;
use crate::rows::{push_atom, push_locations, push_travel, push_unit};
use std::alloc::AllocError;

/// Puts the records of the whole plan after the text.
pub(crate) fn push_head(text: &mut Vec<u8>) -> Result<(), AllocError>
    ensures { IfOk result (λ _. text.new.items ≡ text.old.items ++ head_rows) }
{
    text.extend_from_slice(b"version,1\nline,zero\nrule,modified\nperiod,3600\n")
}

/// Puts the units' records after the text.
pub(crate) fn push_units(text: &mut Vec<u8>, units: u64) -> Result<(), AllocError>
    requires { units ≤ MOST_MADE_UNITS }
    ensures { IfOk result (λ _. text.new.items ≡ text.old.items ++ unit_rows units) }
{
    for n in 1..units + 1 {
        push_unit(text, n)?;
    }
    Ok(())
}

/// Puts the atoms' records after the text.
pub(crate) fn push_atoms(
    text: &mut Vec<u8>,
    units: u64,
    atoms: &[DrawnAtom],
) -> Result<(), AllocError>
    requires { 0 < units }
    ensures { IfOk result (λ _. text.new.items ≡ text.old.items ++ atom_rows units atoms.now) }
{
    for atom in atoms {
        push_atom(text, units, atom)?;
    }
    Ok(())
}

/// Puts the records of the travel from each atom to each after the text.
pub(crate) fn push_all_travel(text: &mut Vec<u8>, atoms: &[DrawnAtom]) -> Result<(), AllocError>
    ensures { IfOk result (λ _. text.new.items ≡ text.old.items ++ travel_rows atoms.now) }
{
    for from in atoms {
        push_travel_from(text, from, atoms)?;
    }
    Ok(())
}

fn push_travel_from(
    text: &mut Vec<u8>,
    from: &DrawnAtom,
    atoms: &[DrawnAtom],
) -> Result<(), AllocError>
    ensures { IfOk result (λ _.
        text.new.items ≡ text.old.items ++ flat_map (travel_row from.now) atoms.now) }
{
    for to in atoms {
        push_travel(text, from, to)?;
    }
    Ok(())
}

/// Puts the records of where the units spend their free time after the text.
pub(crate) fn push_all_locations(text: &mut Vec<u8>, units: u64) -> Result<(), AllocError>
    requires { units ≤ MOST_MADE_UNITS }
    ensures { IfOk result (λ _. text.new.items ≡ text.old.items ++ all_location_rows units) }
{
    for n in 1..units + 1 {
        push_locations(text, units, n)?;
    }
    Ok(())
}
