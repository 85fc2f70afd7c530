ghost use Rattle.std.specs.Prelude.{◌≡◌, ℕ, ◌+◌, ◌*◌, ◌/◌, ◌^◌, ◌<◌, ◌≤◌};
ghost use Rattle.std.specs.Int.{div_ceil};
ghost use Rattle.fixed_interval.specs.Ends.{Ends, Encloses, between, plus_ends, quotient_ends, ratio_ends, scaled_ends, share_ends, shifted_ends};

use crate::iv::Iv;
use std::marker::Model;

/// An interval with ends of 128 bits, `lo <= hi`, for sums and products of [`Iv`].
#[derive(Clone, Copy, Debug, PartialEq, Eq)]
pub struct Wide {
    lo: u128,
    hi: u128,
}

impl Model for Wide {
    ghost Value = { Ends };

    ghost view = { λ a. between a.lo a.hi };

    ghost invariant = { λ a. a.lo ≤ a.hi };

    ghost inverse = { λ e. record { lo = e.lo; hi = e.hi } };
}

impl Wide {
    /// The interval with these ends.
    pub fn new(lo: u128, hi: u128) -> Self
        requires { lo ≤ hi }
        ensures ends { result ≡ between lo hi }
        ensures encloses { (x den : ℕ) → Encloses (between lo hi) x den → Encloses result x den }
    {
        Wide { lo, hi }
    }

    /// The low end.
    pub fn lo(self) -> u128
        ensures end { result ≡ self.lo }
        ensures ordered { self.lo ≤ self.hi }
    {
        self.lo
    }

    /// The high end.
    pub fn hi(self) -> u128
        ensures end { result ≡ self.hi }
        ensures ordered { self.lo ≤ self.hi }
    {
        self.hi
    }

    /// The sum of two intervals in one unit.
    pub fn plus(self, other: Wide) -> Self
        requires { self.hi + other.hi < 2 ^ 128 }
        ensures ends { result ≡ plus_ends self other }
        ensures encloses { (a b den : ℕ) → Encloses self a den → Encloses other b den
            → Encloses result (a + b) den }
        ensures ordered { result.lo ≤ result.hi }
    {
        Wide {
            lo: self.lo + other.lo,
            hi: self.hi + other.hi,
        }
    }

    /// The interval times the whole number `k`.
    pub fn scaled(self, k: u64) -> Self
        requires { self.hi * k < 2 ^ 128 }
        ensures ends { result ≡ scaled_ends k self }
        ensures encloses { (x den : ℕ) → Encloses self x den → Encloses result (k * x) den }
        ensures ordered { result.lo ≤ result.hi }
    {
        let k = u128::from(k);
        Wide {
            lo: k * self.lo,
            hi: k * self.hi,
        }
    }

    /// The interval times the fraction `a / b`, rounded outward.
    pub fn ratio(self, a: u64, b: u64) -> Self
        requires divisor { 1 ≤ b }
        requires room { self.hi * a < 2 ^ 128 }
        ensures ends { result ≡ ratio_ends self a b }
        ensures encloses { (x den : ℕ) → Encloses self x den → Encloses result (x * a) (b * den) }
        ensures ordered { result.lo ≤ result.hi }
    {
        let a = u128::from(a);
        let b = u128::from(b);
        Wide {
            lo: self.lo * a / b,
            hi: (self.hi * a).div_ceil(b),
        }
    }

    /// The share of `self` in `self` and `rest`, as a part in units of `1 / 2^62`.
    ///
    /// An end whose divisor is 0 is 0.
    pub fn part_of(self, rest: Wide) -> Iv
        requires in_range { self.hi ≤ 2 ^ 65 }
        requires rest_in_range { rest.hi ≤ 2 ^ 100 }
        ensures ends { result ≡ share_ends (2 ^ 62) self rest }
        ensures encloses { (x r den : ℕ) → Encloses self x den → Encloses rest r den
            → Encloses result (2 ^ 62 * x) (x + r) }
        ensures ordered { result.lo ≤ result.hi }
        ensures part_in_range { result.hi ≤ 2 ^ 62 }
    {
        self.share(rest, 1 << 62).narrow()
    }

    /// The share of `self` in `self` and `rest`, in units of `1 / unit` and rounded outward.
    ///
    /// An end whose divisor is 0 is 0.
    pub fn share_of(self, rest: Wide, unit: u64) -> Self
        requires product { self.hi * unit < 2 ^ 127 }
        requires sum { self.hi + rest.hi < 2 ^ 127 }
        ensures ends { result ≡ share_ends unit self rest }
        ensures encloses { (x r den : ℕ) → Encloses self x den → Encloses rest r den
            → Encloses result (unit * x) (x + r) }
        ensures ordered { result.lo ≤ result.hi }
    {
        self.share(rest, u128::from(unit))
    }

    fn share(self, rest: Wide, unit: u128) -> Self
        requires product { unit * self.hi ≤ 2 ^ 127 }
        requires sum { self.hi + rest.hi < 2 ^ 127 }
        ensures ends { result ≡ share_ends unit self rest }
        ensures encloses { (x r den : ℕ) → Encloses self x den → Encloses rest r den
            → Encloses result (unit * x) (x + r) }
        ensures ordered { result.lo ≤ result.hi }
        ensures at_most_whole { result.hi ≤ unit }
    {
        Wide {
            lo: floor_of(unit * self.lo, self.lo + rest.hi),
            hi: ceil_of(unit * self.hi, self.hi + rest.lo),
        }
    }

    /// The quotient of `self` by `d`, rounded outward, with neither end above `cap`.
    ///
    /// The high end is `cap` if the low end of `d` is 0, and the low end is 0 if the high end of
    /// `d` is. The answer contains the quotient of two numbers
    /// wherever that quotient is known to be at most `cap`.
    pub fn over(self, d: Wide, cap: u128) -> Self
        ensures ends { result ≡ quotient_ends self d cap }
        ensures encloses { (x y den : ℕ) → Encloses self x den → Encloses d y den
            → x ≤ cap * y → Encloses result x y }
        ensures ordered { result.lo ≤ result.hi }
        ensures capped { result.hi ≤ cap }
    {
        let lo = floor_of(self.lo, d.hi).min(cap);
        let hi = if d.lo == 0 {
            cap
        } else {
            self.hi.div_ceil(d.lo).min(cap)
        };
        Wide { lo, hi }
    }

    /// The interval divided by `2^h`, rounded outward.
    pub fn shifted(self, h: u32) -> Self
        requires { h ≤ 127 }
        ensures ends { result ≡ shifted_ends h self }
        ensures encloses { (x den : ℕ) → Encloses self x den → Encloses result x (2 ^ h * den) }
        ensures ordered { result.lo ≤ result.hi }
    {
        Wide {
            lo: self.lo >> h,
            hi: self.hi.div_ceil(1 << h),
        }
    }

    pub(crate) fn narrow(self) -> Iv
        requires { self.hi ≤ 2 ^ 62 }
        ensures ends { result ≡ self }
        ensures ordered { self.lo ≤ self.hi }
    {
        Iv::of_ends(self.lo as u64, self.hi as u64)
    }
}

// The quotient rounded down, and 0 if there is no divisor.
fn floor_of(x: u128, whole: u128) -> u128
    ensures { result ≡ x / whole }
{
    if whole == 0 { 0 } else { x / whole }
}

// The quotient rounded up, and 0 for 0 without a divisor.
fn ceil_of(x: u128, whole: u128) -> u128
    requires { whole ≡ 0 → x ≡ 0 }
    ensures { result ≡ div_ceil x whole }
{
    if whole == 0 { 0 } else { x.div_ceil(whole) }
}
