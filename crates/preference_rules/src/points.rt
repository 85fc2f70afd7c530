ghost use Rattle.std.specs.Prelude.{◌≡◌, ◌^◌, ◌<◌, ◌≤◌, ◌==◌, if◌then◌else◌, length};
ghost use Rattle.preference_rules.specs.Places as spec;
ghost use Rattle.preference_rules.specs.Places.{IsNear};

use hyper_model::{Atom, Atoms, Rule, Table};

/// A place on the map: its coordinates, each times `over`.
///
/// The numbers have 128 bits, so that no rate and no coordinate is too large for them.
#[derive(Clone, Copy, Debug)]
pub(crate) struct Point {
    pub(crate) x: u128,
    pub(crate) y: u128,
    pub(crate) over: u128,
}

/// The thousandths of all a unit's free time.
const WHOLE: u128 = 1000;

/// Where a unit is on average: at each atom for its thousandths there.
pub(crate) fn unit_place(atoms: &Atoms, located: &Table, unit: usize) -> Point
    requires unit { unit < located.now.rows }
    requires atoms { length atoms.now ≡ located.now.cols }
    ensures place { result ≡ spec.unit_place atoms.now located.now unit }
    ensures near { IsNear result }
{
    let mut x = 0;
    let mut y = 0;
    for k in 0..atoms.len() {
        let atom = atoms.get(k);
        let thousandths = located.get(unit, k);
        x += u128::from(thousandths) * u128::from(atom.x);
        y += u128::from(thousandths) * u128::from(atom.y);
    }
    Point { x, y, over: WHOLE }
}

/// Where a call of an atom is taken to come from: by the strict rule the mean place of its district's calls, else the
/// atom itself.
pub(crate) fn call_place(rule: Rule, atoms: &Atoms, atom: &Atom) -> Point
    ensures place { result ≡ spec.call_place rule atoms.now atom.now }
    ensures near { IsNear result }
{
    match rule {
        Rule::Strict => district_place(atoms, atom.district),
        Rule::Modified | Rule::Given => Point {
            x: u128::from(atom.x),
            y: u128::from(atom.y),
            over: 1,
        },
    }
}

/// The mean place of a district's calls.
fn district_place(atoms: &Atoms, district: u8) -> Point
    ensures place { result ≡ spec.district_place atoms.now district }
    ensures near { IsNear result }
{
    let rate = district_rate(atoms, district);
    let mut x = 0;
    let mut y = 0;
    let mut over = 0;
    for k in 0..atoms.len() {
        let atom = atoms.get(k);
        let weight = weight_in(district, rate, atom);
        x += u128::from(weight) * u128::from(atom.x);
        y += u128::from(weight) * u128::from(atom.y);
        over += u128::from(weight);
    }
    Point { x, y, over }
}

/// The rate of all calls of a district.
fn district_rate(atoms: &Atoms, district: u8) -> u64
    ensures { result ≡ spec.district_rate atoms.now district }
{
    let mut total = 0;
    for k in 0..atoms.len() {
        let atom = atoms.get(k);
        total += rate_in(district, atom);
    }
    total
}

fn rate_in(district: u8, atom: &Atom) -> u64
    ensures rate { result ≡ (if atom.now.district == district then atom.now.rate else 0) }
    ensures most { result ≤ 2 ^ 32 }
{
    if atom.district == district {
        u64::from(atom.rate)
    } else {
        0
    }
}

/// What an atom counts in the mean place of a district whose calls have this rate.
fn weight_in(district: u8, rate: u64, atom: &Atom) -> u32
    ensures { result ≡ spec.weight_in district rate atom.now }
{
    if atom.district != district {
        return 0;
    }
    if rate == 0 { 1 } else { atom.rate }
}

/// The way between two places along the two axes, times what both are over.
pub(crate) fn way(a: Point, b: Point) -> u128
    requires a { IsNear a }
    requires b { IsNear b }
    ensures { result ≡ spec.way a b }
{
    (b.over * a.x).abs_diff(a.over * b.x) + (b.over * a.y).abs_diff(a.over * b.y)
}
