use worked_plans::{
    ALL_BUT_FULL, ONE_GROUP, SEVEN_OVERLOADED, SEVEN_SWAMPED, SIX_IN_GROUPS, THIRD_LOAD,
    THIRD_LOAD_WITH_A_QUEUE, THREE_UNLIKE, TWO_UNITS,
};

/// The digests of a plan's chain, as `bench/chain_digests.py` finds them from the plan's text.
#[derive(Clone, Copy)]
pub(crate) struct Digests {
    /// Of the rates.
    pub rates: u64,
    /// Of the entries that the elimination leaves.
    pub left: u64,
    /// Of the weights of the words, and of the calls that wait.
    pub weights: u64,
}

// What `by_hand` has the values of.
pub(crate) const THIRD_WEIGHTS: u64 = 12_877_327_343_837_595_130;

pub(crate) const QUEUE_WEIGHTS: u64 = 6_032_473_139_039_274_769;

pub(crate) const HALVED_WEIGHTS: u64 = 8_876_220_504_973_831_212;

pub(crate) const OPPOSITE_RATES: u64 = 29_439_220_410_228_880;

pub(crate) const OPPOSITE_LEFT: u64 = 6_277_725_262_781_488_769;

pub(crate) const OPPOSITE_WEIGHTS: u64 = 11_537_006_642_322_175_273;

pub(crate) const WORKED: [(&str, Digests); 9] = [
    (
        THIRD_LOAD,
        Digests {
            rates: 12_522_796_352_571_857_480,
            left: 12_522_796_352_571_857_480,
            weights: THIRD_WEIGHTS,
        },
    ),
    (
        THIRD_LOAD_WITH_A_QUEUE,
        Digests {
            rates: 12_522_796_352_571_857_480,
            left: 12_522_796_352_571_857_480,
            weights: QUEUE_WEIGHTS,
        },
    ),
    (
        ALL_BUT_FULL,
        Digests {
            rates: 9_115_835_298_963_292_256,
            left: 9_115_835_298_963_292_256,
            weights: HALVED_WEIGHTS,
        },
    ),
    (
        TWO_UNITS,
        Digests {
            rates: OPPOSITE_RATES,
            left: OPPOSITE_LEFT,
            weights: OPPOSITE_WEIGHTS,
        },
    ),
    (
        ONE_GROUP,
        Digests {
            rates: 18_322_506_240_980_731_288,
            left: 8_388_513_602_029_571_666,
            weights: OPPOSITE_WEIGHTS,
        },
    ),
    (
        THREE_UNLIKE,
        Digests {
            rates: 6_301_946_719_016_884_848,
            left: 14_515_119_112_934_138_241,
            weights: 9_919_636_122_639_915_198,
        },
    ),
    (
        SIX_IN_GROUPS,
        Digests {
            rates: 17_345_990_705_743_434_102,
            left: 15_343_162_221_981_496_134,
            weights: 15_623_058_580_112_495_959,
        },
    ),
    (
        SEVEN_OVERLOADED,
        Digests {
            rates: 16_890_081_263_708_689_823,
            left: 11_272_942_462_010_271_713,
            weights: 10_300_185_460_450_126_079,
        },
    ),
    (
        SEVEN_SWAMPED,
        Digests {
            rates: 12_117_909_235_577_256_120,
            left: 765_262_793_090_246_642,
            weights: 10_809_658_025_132_963_193,
        },
    ),
];

/// Of eight units on a grid of forty atoms.
pub(crate) const GRID: Digests = Digests {
    rates: 950_086_875_727_725_209,
    left: 13_531_269_569_249_499_152,
    weights: 10_495_728_017_596_144_726,
};

/// Of the plan of eight units that is made from 1.
pub(crate) const MADE: Digests = Digests {
    rates: 13_868_053_402_757_180_115,
    left: 6_354_853_094_594_151_133,
    weights: 5_335_236_007_342_522_679,
};

/// Of the plan of ten units that is made from 7.
pub(crate) const TEN_UNITS: Digests = Digests {
    rates: 13_295_825_193_309_700_069,
    left: 8_990_623_770_527_524_698,
    weights: 5_138_119_278_643_211_834,
};
