ghost use Rattle.std.specs.Prelude.{◌≡◌, ℕ, ◌+◌, ◌*◌, ◌^◌, ◌<◌, ◌≤◌, List, [], length};
ghost use Rattle.fixed_interval.specs.WeightList.{EnclosesAll};
ghost use Rattle.hyper_model.specs.Solutions.{mass_in};
ghost use Rattle.rate_matrix.specs.Bands.{entry};
ghost use Rattle.rate_matrix.specs.Elimination.{HoldsAll};
ghost use Rattle.rate_matrix.specs.Weights.{AreWeightsOf, inflow_ends, weight_of};

use fixed_interval::{Iv, Weights, Wide};
use rate_matrix::RateMatrix;

/// The weights of the states, from what an elimination of all but the first has left, in either form of the
/// matrix.
///
/// The first state weighs 2^52. Each next one weighs what flows into it from the states before it, over
/// what leaves it for them (Grassmann, Taksar and Heyman 1985). Up to one common factor the weights enclose
/// all masses that the matrix holds. No memory is taken: room for all weights is to be reserved.
pub fn solve_back(m: &RateMatrix, out: &mut Weights)
    requires reduced { m.now.alive ≡ 1 }
    requires empty { out.old.items ≡ [] }
    requires room { m.now.size ≤ out.old.spare }
    ensures weights { AreWeightsOf (entry m.now) m.now.size out.new.items }
    ensures count { length out.new.items ≡ m.now.size }
    ensures spare { out.new.spare + m.now.size ≡ out.old.spare }
    ensures encloses { (ys : List ℕ) → length ys ≡ m.now.size → HoldsAll m.now.size (entry m.now) (mass_in ys)
        → EnclosesAll out.new.items ys }
{
    let size = m.size();
    out.push_shifting(Iv::exact(1 << 52).wide());
    for state in 1..size {
        let weight = next_weight(m, state, out);
        out.push_shifting(weight);
    }
}

/// The weight of a state before its shift, from the weights of the states before it.
fn next_weight(m: &RateMatrix, state: usize, weights: &Weights) -> Wide
    requires later { 0 < state }
    requires inside { state < m.now.size }
    requires before { length weights.now.items ≡ state }
    ensures weight { result ≡ weight_of (entry m.now) weights.now.items state }
    ensures in_range { result.hi < 2 ^ 100 }
{
    let _size = m.size();
    let inflow = inflow(m, state, weights);
    let out = m.total_leaving(state);
    Wide::new(inflow.lo() / out.hi(), inflow.hi().div_ceil(out.lo()))
}

/// What flows into a state from the states before it.
fn inflow(m: &RateMatrix, state: usize, weights: &Weights) -> Wide
    requires inside { state < m.now.size }
    requires before { length weights.now.items ≡ state }
    ensures sum { result ≡ inflow_ends (entry m.now) weights.now.items state }
    ensures ordered { result.lo ≤ result.hi }
    ensures in_range { result.hi ≤ state * 2 ^ 114 }
{
    let _size = m.size();
    let mut sum = Wide::new(0, 0);
    for i in 0..state {
        sum = sum.plus(weights.get(i).times(m.entry(i, state)));
    }
    sum
}
