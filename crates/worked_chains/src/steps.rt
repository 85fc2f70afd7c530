ghost use Rattle.std.specs.Prelude.{◌<◌, ◌≤◌};
ghost use Rattle.hyper_model.specs.Plans.{atoms};
ghost use Rattle.hyper_model.specs.Words.{words};

use crate::digests::Ends;
use busy_words::{Order, first_free, takers};
use fixed_interval::{Iv, Weights};
use hyper_model::{Plan, law_accepted};
use plan_reader::read_plan;
use std::test::Fail;
use worked_plans::THREE_UNLIKE;

// Of three units. Word 4, in which one unit is busy, stands before word 3, in which two are; after the last is the full
// word again.
const WORDS: [u16; 9] = [0, 1, 2, 4, 3, 5, 6, 7, 7];

#[test]
fn words_stand_by_level(rt: HostRuntime) -> Result<(), Fail> {
    let order = Order::of(rt.alloc(), 3)?;
    for (place, word) in WORDS.iter().enumerate() {
        assert_eq!(rt; order.word_or_full(place), *word);
    }
    Ok(())
}

/// An atom and a word, the unit that goes first, and all that can go.
type Sent = (usize, u16, Option<u8>, u16);

// The lists of the plan are A then C or B, B or A then C, and C then B then A.
const SENT: [Sent; 11] = [
    (0, 0b000, Some(0), 0b001),
    (0, 0b001, Some(2), 0b110),
    (0, 0b101, Some(1), 0b010),
    (1, 0b000, Some(1), 0b011),
    (1, 0b001, Some(1), 0b010),
    (1, 0b010, Some(0), 0b001),
    (1, 0b011, Some(2), 0b100),
    (2, 0b000, Some(2), 0b100),
    (2, 0b100, Some(1), 0b010),
    (2, 0b110, Some(0), 0b001),
    (1, 0b111, None, 0b000),
];

#[test]
fn units_of_a_group_can_all_go(rt: HostRuntime) -> Result<(), Fail> {
    let plan = read_plan(rt.alloc(), THREE_UNLIKE.as_bytes())?;
    assert!(rt; plan.units() == 3 && plan.atoms() == 3);
    for (atom, word, first, all) in SENT {
        assert!(rt; atom < 3 && word < 8);
        assert_eq!(rt; sent_in(&plan, atom, word), (first, all));
    }
    Ok(())
}

fn sent_in(plan: &Plan, atom: usize, word: u16) -> (Option<u8>, u16)
    requires atom { atom < atoms plan.now }
    requires word { word < words plan.now }
{
    law_accepted(plan);
    let lists = plan.lists();
    (first_free(lists, atom, word), takers(lists, atom, word))
}

const FIRST: u64 = 1 << 52;

// A weight that is pushed after 2^52, and both after it: what exceeds 2^52 shifts both by the least power of two by
// which it does not.
const SHIFTED: [(Ends, [Ends; 2]); 5] = [
    ((0, 1), [(FIRST, FIRST), (0, 1)]),
    ((FIRST, FIRST), [(FIRST, FIRST), (FIRST, FIRST)]),
    (
        (FIRST, FIRST + 1),
        [(1 << 51, 1 << 51), (1 << 51, (1 << 51) + 1)],
    ),
    ((1 << 53, 1 << 53), [(1 << 51, 1 << 51), (FIRST, FIRST)]),
    (
        (10 << 52, 10 << 52),
        [(1 << 48, 1 << 48), (10 << 48, 10 << 48)],
    ),
];

#[test]
fn weights_are_shifted_by_the_least_power(rt: HostRuntime) -> Result<(), Fail> {
    for (ends, wanted) in SHIFTED {
        let mut weights = Weights::reserved(rt.alloc(), 2)?;
        push_both(&mut weights, ends);
        assert_eq!(rt; weights.len(), 2);
        assert_eq!(rt; [ends_of(weights.get(0)), ends_of(weights.get(1))], wanted);
    }
    Ok(())
}

fn push_both(weights: &mut Weights, ends: Ends)
    requires { 2 ≤ weights.old.spare }
{
    weights.push_shifting(Iv::exact(1 << 52).wide());
    if let Some(weight) = Iv::new(ends.0, ends.1) {
        weights.push_shifting(weight.wide());
    }
}

fn ends_of(weight: Iv) -> Ends {
    (weight.lo(), weight.hi())
}
