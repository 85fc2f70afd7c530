ghost use Rattle.std.specs.Prelude.{◌≡◌, ℕ, ◌+◌, ◌*◌, ◌^◌, ◌<◌, ◌≤◌, SomeIff, IfSome};
ghost use Rattle.fixed_interval.specs.Ends.{Ends, Encloses, between, exact_ends, outward_ends, plus_capped_ends, product_ends, shifted_ends, times_part_ends};

use crate::wide::Wide;
use std::marker::Model;

/// An interval with the ends `lo <= hi <= 2^62`.
///
/// It stands for numbers in a unit that its user states. Parts of one are in units of `1 / 2^62`,
/// so that `2^62` is the whole.
#[derive(Clone, Copy, Debug, PartialEq, Eq)]
pub struct Iv {
    lo: u64,
    hi: u64,
}

impl Model for Iv {
    ghost Value = { Ends };

    ghost view = { λ a. between a.lo a.hi };

    ghost invariant = { λ a. (a.lo ≤ a.hi) × (a.hi ≤ 2 ^ 62) };

    ghost inverse = { λ e. record { lo = e.lo; hi = e.hi } };
}

impl Iv {
    /// The interval with these ends, or `None` if they are out of order or past `2^62`.
    pub fn new(lo: u64, hi: u64) -> Option<Self>
        ensures ends { SomeIff result ((lo ≤ hi) × (hi ≤ 2 ^ 62)) (between lo hi) }
        ensures encloses { IfSome result (λ i. (x den : ℕ) → Encloses (between lo hi) x den
            → Encloses i x den) }
    {
        if lo <= hi && hi <= 1 << 62 {
            Some(Iv { lo, hi })
        } else {
            None
        }
    }

    /// The number `v` as both ends.
    pub fn exact(v: u64) -> Self
        requires { v ≤ 2 ^ 62 }
        ensures ends { result ≡ exact_ends v }
        ensures encloses { (den : ℕ) → Encloses result (v * den) den }
    {
        Iv { lo: v, hi: v }
    }

    /// The low end.
    pub fn lo(self) -> u64
        ensures end { result ≡ self.lo }
        ensures ordered { self.lo ≤ self.hi }
        ensures in_range { self.hi ≤ 2 ^ 62 }
    {
        self.lo
    }

    /// The high end.
    pub fn hi(self) -> u64
        ensures end { result ≡ self.hi }
        ensures ordered { self.lo ≤ self.hi }
        ensures in_range { self.hi ≤ 2 ^ 62 }
    {
        self.hi
    }

    /// The same interval with ends of 128 bits.
    pub fn wide(self) -> Wide
        ensures ends { result ≡ self }
        ensures encloses { (x den : ℕ) → Encloses self x den → Encloses result x den }
        ensures ordered { self.lo ≤ self.hi }
        ensures in_range { self.hi ≤ 2 ^ 62 }
    {
        Wide::new(u128::from(self.lo), u128::from(self.hi))
    }

    /// The sum of two intervals in one unit, with neither end above `cap`.
    ///
    /// It contains the sum of two numbers wherever that sum is known to be at most `cap`.
    pub fn plus_capped(self, other: Iv, cap: u64) -> Self
        requires { cap ≤ 2 ^ 62 }
        ensures ends { result ≡ plus_capped_ends self other cap }
        ensures encloses { (a b den : ℕ) → Encloses self a den → Encloses other b den
            → a + b ≤ cap * den → Encloses result (a + b) den }
        ensures ordered { result.lo ≤ result.hi }
        ensures in_range { result.hi ≤ 2 ^ 62 }
    {
        Iv {
            lo: (self.lo + other.lo).min(cap),
            hi: (self.hi + other.hi).min(cap),
        }
    }

    /// The product with a part in units of `1 / 2^62`, in the unit of `self`.
    pub fn times_part(self, part: Iv) -> Self
        ensures ends { result ≡ times_part_ends self part }
        ensures encloses { (a m p n : ℕ) → Encloses self a m → Encloses part (2 ^ 62 * p) n
            → Encloses result (a * p) (m * n) }
        ensures ordered { result.lo ≤ result.hi }
        ensures in_range { result.hi ≤ 2 ^ 62 }
    {
        let low = u128::from(self.lo) * u128::from(part.lo);
        let high = u128::from(self.hi) * u128::from(part.hi);
        Iv {
            lo: (low >> 62) as u64,
            hi: ((high + ((1 << 62) - 1)) >> 62) as u64,
        }
    }

    /// The product, in the product of the two units.
    pub fn times(self, other: Iv) -> Wide
        ensures ends { result ≡ product_ends self other }
        ensures encloses { (a m b n : ℕ) → Encloses self a m → Encloses other b n
            → Encloses result (a * b) (m * n) }
        ensures ordered { self.lo ≤ self.hi }
        ensures in_range { self.hi ≤ 2 ^ 62 }
        ensures other_ordered { other.lo ≤ other.hi }
        ensures other_in_range { other.hi ≤ 2 ^ 62 }
        ensures product_ordered { result.lo ≤ result.hi }
    {
        Wide::new(
            u128::from(self.lo) * u128::from(other.lo),
            u128::from(self.hi) * u128::from(other.hi),
        )
    }

    /// A part in units of `1 / 2^62`, given in units of `1 / unit` and rounded outward.
    pub fn outward(self, unit: u32) -> (u64, u64)
        requires { unit ≤ 1000000 }
        ensures ends { between result.0 result.1 ≡ outward_ends unit self }
        ensures encloses { (p den : ℕ) → Encloses self (2 ^ 62 * p) den
            → Encloses (between result.0 result.1) (unit * p) den }
        ensures ordered { result.0 ≤ result.1 }
        ensures in_range { result.1 ≤ unit }
    {
        let unit = u128::from(unit);
        let low = unit * u128::from(self.lo);
        let high = unit * u128::from(self.hi);
        ((low >> 62) as u64, ((high + ((1 << 62) - 1)) >> 62) as u64)
    }

    pub(crate) fn of_ends(lo: u64, hi: u64) -> Self
        requires ordered { lo ≤ hi }
        requires in_range { hi ≤ 2 ^ 62 }
        ensures { result ≡ between lo hi }
    {
        Iv { lo, hi }
    }

    // The interval divided by 2^power, of ends that leave room to round up before the shift.
    pub(crate) fn shifted(self, power: u32) -> Self
        requires { power ≤ 48 }
        ensures ends { result ≡ shifted_ends power self }
        ensures ordered { result.lo ≤ result.hi }
    {
        Iv {
            lo: self.lo >> power,
            hi: (self.hi + ((1 << power) - 1)) >> power,
        }
    }
}
