use crate::cases::{
    HALVED_WEIGHTS, OPPOSITE_LEFT, OPPOSITE_RATES, OPPOSITE_WEIGHTS, QUEUE_WEIGHTS, THIRD_WEIGHTS,
};
use crate::chains::order_of;
use crate::digests::{Ends, digest_of};
use plan_reader::read_plan;
use rate_matrix::{RateMatrix, WordChain};
use std::alloc::{AllocError, Global};
use std::process::Abort;
use std::test::Fail;
use worked_plans::TWO_UNITS;

const FIRST: u64 = 1 << 52;

// Of two like units: the weight of each one's busy time, and of that of both.
const OPPOSITE: [Ends; 4] = [
    (FIRST, FIRST),
    (1_501_199_875_790_165, 1_501_199_875_790_166),
    (1_501_199_875_790_165, 1_501_199_875_790_166),
    (1_000_799_917_193_443, 1_000_799_917_193_444),
];

const THIRD: Ends = (1_501_199_875_790_165, 1_501_199_875_790_166);

const NINTH: Ends = (750_599_937_895_082, 750_599_937_895_083);

// After twenty halvings, so that the weight of the calls that wait fits.
const HALVED: [Ends; 3] = [
    (1 << 32, 1 << 32),
    (4_294_963_001, 4_294_963_002),
    (4_294_958_706_069_702, 4_294_958_706_069_704),
];

// What the rounding leaves of the parts of the first weight, and the digest that every way gives.
const FEW: [(&[Ends], u64); 4] = [
    (&[(FIRST, FIRST), THIRD], THIRD_WEIGHTS),
    (&[(FIRST, FIRST), THIRD, NINTH], QUEUE_WEIGHTS),
    (&HALVED, HALVED_WEIGHTS),
    (&OPPOSITE, OPPOSITE_WEIGHTS),
];

#[test]
fn weights_by_hand_have_these_digests(rt: HostRuntime) {
    for (weights, digest) in FEW {
        assert_eq!(rt; digest_of(weights), digest);
    }
}

// The scale 2^62 over the 8 calls and services of an hour.
const EIGHTH: u64 = 1 << 59;

// Between two units with opposite lists, in that scale: from none busy, from the first unit busy, from the second busy
// and from both. A call comes to each unit, and each serves three.
const RATES: [u64; 12] = [1, 1, 0, 3, 0, 2, 3, 0, 2, 0, 3, 3];

// In quarters of it, after the elimination. Of what comes to the state of the second unit busy a quarter goes on to
// that of the first, and the rest to none busy.
const LEFT: [u64; 12] = [5, 4, 0, 15, 4, 8, 12, 4, 8, 0, 12, 12];

#[test]
fn entries_by_hand_have_these_digests(rt: HostRuntime) -> Result<(), Fail> {
    let rates = digest_of_exact(rt.alloc(), &RATES, EIGHTH)?;
    let left = digest_of_exact(rt.alloc(), &LEFT, EIGHTH / 4)?;
    assert_eq!(rt; (rates, left), (OPPOSITE_RATES, OPPOSITE_LEFT));
    Ok(())
}

fn digest_of_exact(alloc: Global, counts: &[u64], unit: u64) -> Result<u64, AllocError> {
    let mut all = Vec::new(alloc);
    for count in counts {
        let end = count.wrapping_mul(unit);
        all.push((end, end))?;
    }
    Ok(digest_of(&all))
}

// Between two units with opposite lists, calls and services an hour from none busy, the first busy, the second and both.
const OUTFLOWS: [u64; 4] = [2, 5, 5, 6];

#[test]
fn outflows_of_two_units(rt: HostRuntime) -> Result<(), Fail> {
    let plan = read_plan(rt.alloc(), TWO_UNITS.as_bytes())?;
    let order = order_of(rt.alloc(), &plan)?;
    let chain = WordChain::of(&plan, &order);
    has_outflows(&rt, &RateMatrix::dense(rt.alloc(), &chain)?);
    has_outflows(&rt, &RateMatrix::packed(rt.alloc(), &chain)?);
    Ok(())
}

fn has_outflows(rt: &impl Abort, m: &RateMatrix) {
    assert_eq!(rt; (m.size(), m.scale()), (OUTFLOWS.len(), EIGHTH));
    for state in 0..m.size() {
        assert_eq!(rt; Some(&m.outflow(state)), OUTFLOWS.get(state));
    }
}
