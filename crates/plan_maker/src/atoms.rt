ghost use Rattle.std.specs.Prelude.{◌≡◌, ◌+◌, IfOk};
ghost use Rattle.plan_maker.specs.Draws.{next_state, number_from, drawn_atoms};

use crate::generator::Generator;
use std::alloc::{AllocError, Global};

/// An atom with what was drawn for it: the rate of its calls per period, and where it lies.
#[derive(Clone, Copy, Debug, PartialEq, Eq)]
pub struct DrawnAtom {
    /// How many atoms come before it.
    pub place: u32,
    pub rate: u32,
    pub x: u32,
    pub y: u32,
}

/// Draws the first `count` atoms of a generator that begins with this number.
pub(crate) fn draw_atoms(
    alloc: Global,
    number: u32,
    count: u32,
) -> Result<Vec<DrawnAtom>, AllocError>
    ensures { IfOk result (λ atoms. atoms.items ≡ drawn_atoms number count) }
{
    let mut generator = Generator { state: number };
    let mut atoms = Vec::new(alloc);
    for place in 0..count {
        atoms.push(draw_atom(&mut generator, place))?;
    }
    Ok(atoms)
}

fn draw_atom(generator: &mut Generator, place: u32) -> DrawnAtom
    ensures place { result.place ≡ place }
    ensures rate { result.rate ≡ 1 + number_from (next_state generator.old.state) 4 }
    ensures x { result.x ≡ number_from (next_state (next_state generator.old.state)) 10000 }
    ensures y { result.y
        ≡ number_from (next_state (next_state (next_state generator.old.state))) 10000 }
    ensures state { generator.new.state
        ≡ next_state (next_state (next_state generator.old.state)) }
{
    let rate = 1 + generator.draw(4);
    let x = generator.draw(10_000);
    let y = generator.draw(10_000);
    DrawnAtom { place, rate, x, y }
}
