ghost use Rattle.std.specs.Prelude.{◌≡◌, ℕ, ◌^◌, ◌<◌, ◌≤◌, length, slice_index};

/// The number as a mass. None is above `2^61`, so that there is room for a high mass.
pub(crate) fn mass_of(number: u128) -> u64
    ensures { result ≤ 2 ^ 61 }
{
    number.min(1 << 61) as u64
}

/// The mass whose outflow at this rate is the flow, to the nearest whole number.
pub(crate) fn balanced_mass(flow: u128, leaving: u64) -> u64
    requires flow { flow ≤ 2 ^ 116 }
    ensures { result ≤ 2 ^ 61 }
{
    if leaving == 0 {
        return 0;
    }
    let leaving = u128::from(leaving);
    mass_of((flow + leaving / 2) / leaving)
}

/// The mass moved toward its aim by a factor of the distance, in 64ths: past the aim if that is more than 1.
pub(crate) fn moved_mass(mass: u64, aim: u64, factor: u64) -> u64
    ensures { result ≤ 2 ^ 61 }
{
    let way = (u128::from(aim.abs_diff(mass)) * u128::from(factor)) >> 6;
    let mass = u128::from(mass);
    if u128::from(aim) > mass {
        mass_of(mass.saturating_add(way))
    } else {
        mass_of(mass.saturating_sub(way))
    }
}

/// Makes all masses this one.
pub(crate) fn fill(masses: &mut [u64], mass: u64)
    ensures { (k : ℕ) → k < length masses.old → slice_index masses.new k ≡ mass }
{
    for item in masses.iter_mut() {
        *item = mass;
    }
}

/// The state of the largest mass, the first of them, and that mass.
pub(crate) fn heaviest(masses: &[u64]) -> (usize, u64) {
    let mut place = 0;
    let mut most = 0;
    for (state, mass) in masses.iter().enumerate() {
        if *mass > most {
            place = state;
            most = *mass;
        }
    }
    (place, most)
}
