ghost use Rattle.std.specs.Prelude.{◌≡◌, ℕ, ◌+◌, ◌-◌, ◌*◌, ◌^◌, ◌<◌, ◌≤◌, All, List, [], ◌∷◌, ◌++◌, IfOk, length, map, vec_capacity, vec_len};
ghost use Rattle.fixed_interval.specs.Ends.{shifted_ends};
ghost use Rattle.fixed_interval.specs.WeightList.{EnclosesAll, IsLeastShift, IsWeight, PushesShifted, WeightList, ends_at};

use crate::MOST_WEIGHTS;
use crate::iv::Iv;
use crate::wide::Wide;
use std::alloc::{AllocError, Global};
use std::marker::Model;

/// A list of weights that matter only up to one common factor, each with a high end of at most
/// `2^52`.
///
/// Room for all of them is reserved at the start, and for at most `MOST`. Contracts see the weights as `items`, and the
/// room that is left as `spare`.
#[derive(Debug, Drop)]
pub struct WeightsUpTo<const MOST: usize> {
    items: Vec<Iv>,
}

/// The weights of the words of a plan of twelve units at most, and one more.
pub type Weights = WeightsUpTo<MOST_WEIGHTS>;

impl<const MOST: usize> Model for WeightsUpTo<MOST> {
    ghost Value = { WeightList };

    ghost view = { λ a. record { items = a.items.items; spare = vec_capacity a.items - vec_len a.items } };

    ghost invariant = { λ a. All IsWeight a.items.items × (vec_capacity a.items ≤ MOST) };
}

impl<const MOST: usize> WeightsUpTo<MOST> {
    /// An empty list with room for `n` weights.
    pub fn reserved(alloc: Global, n: usize) -> Result<Self, AllocError>
        requires { n ≤ MOST }
        ensures empty { IfOk result (λ weights. weights.items ≡ []) }
        ensures room { IfOk result (λ weights. weights.spare ≡ n) }
    {
        Ok(WeightsUpTo {
            items: Vec::with_capacity(alloc, n)?,
        })
    }

    /// Puts `w` at the end, and shifts all weights if the high end of `w` is past `2^52`.
    ///
    /// The shift is by the least power of two that brings that end to at most `2^52`. It is one for
    /// all weights, so what they enclose up to a common factor they enclose after it as well.
    pub fn push_shifting(&mut self, w: Wide)
        requires room { 1 ≤ self.old.spare }
        requires in_range { w.hi < 2 ^ 100 }
        ensures items { PushesShifted self.old.items self.new.items w }
        ensures count { length self.new.items ≡ length self.old.items + 1 }
        ensures spare { self.new.spare + 1 ≡ self.old.spare }
        ensures encloses { (numbers : List ℕ) → EnclosesAll (self.old.items ++ w ∷ []) numbers
            → EnclosesAll self.new.items numbers }
    {
        let power = least_shift(w.hi());
        shift_all(&mut self.items, power);
        self.items.push_reserved(w.shifted(power).narrow());
    }

    /// Puts `w` at the end, if its high end is at most `2^52`: no weight is shifted.
    pub fn push(&mut self, w: Wide)
        requires room { 1 ≤ self.old.spare }
        requires in_range { w.hi ≤ 2 ^ 52 }
        ensures items { self.new.items ≡ self.old.items ++ w ∷ [] }
        ensures spare { self.new.spare + 1 ≡ self.old.spare }
    {
        self.items.push_reserved(w.narrow());
    }

    /// How many weights there are.
    pub fn len(&self) -> usize
        ensures count { result ≡ length self.now.items }
        ensures in_range { result ≤ MOST }
    {
        self.items.len()
    }

    /// The weight at this place.
    pub fn get(&self, i: usize) -> Iv
        requires { i < length self.now.items }
        ensures item { result ≡ ends_at self.now.items i }
        ensures ordered { result.lo ≤ result.hi }
        ensures in_range { result.hi ≤ 2 ^ 52 }
    {
        self.items[i]
    }
}

/// The least power of two by which a high end is divided, and rounded up, to be at most `2^52`.
pub fn least_shift(high: u128) -> u32
    requires { high < 2 ^ 100 }
    ensures least { IsLeastShift high result }
    ensures in_range { result ≤ 48 }
{
    if high <= 1 << 52 {
        return 0;
    }
    u128::BITS - (high - 1).leading_zeros() - 52
}

fn shift_all(items: &mut [Iv], power: u32)
    requires { power ≤ 48 }
    ensures { items.new ≡ map (shifted_ends power) items.old }
{
    if power == 0 {
        return;
    }
    for item in items.iter_mut() {
        *item = item.shifted(power);
    }
}
