//! Plans of one to three units.

/// A unit that serves so many calls while so many come. They are lost if it is busy, unless a last record says that they
/// wait.
macro_rules! one_unit {
    ($service:literal, $calls:literal $(, $last:literal)?) => {
        concat!(
            "unit,A,",
            $service,
            "\natom,P,",
            $calls,
            ",0,0,A\ntravel,P,P,300\nat,A,P,1000\nprefer,P,A\n"
            $(, $last)?
        )
    };
}

/// Two like units, each at its own atom, and so many calls from the second; before them what version the text has, and
/// after them its lists.
macro_rules! two_units {
    ($version:literal, $calls:literal, $lists:literal) => {
        concat!(
            $version,
            "\
unit,A,3
unit,B,3
atom,P,1,0,0,A
atom,Q,",
            $calls,
            ",9,0,B
travel,P,P,60
travel,P,Q,300
travel,Q,P,300
travel,Q,Q,60
at,A,P,1000
at,B,Q,1000
",
            $lists
        )
    };
}

/// One unit serves two calls while one comes: a third of them is lost.
pub const HALF_LOAD: &str = one_unit!(2, 1);

/// A unit that serves three calls for each that comes. 2^52 is not divisible by 3, so the weights are rounded.
pub const THIRD_LOAD: &str = one_unit!(3, 1);

/// The same unit, if calls that find it busy wait.
pub const THIRD_LOAD_WITH_A_QUEUE: &str = one_unit!(3, 1, "line,infinite\n");

/// Of 100,000 calls for each 199,999 services, 100,000 of 299,999 are lost.
pub const LITTLE_MORE: &str = one_unit!(199999, 100000);

/// A unit that serves one call while ten come.
pub const TEN_LOADS: &str = one_unit!(1, 10);

/// Calls that wait for a unit which serves a million while 999,999 come.
pub const ALL_BUT_FULL: &str = one_unit!(1000000, 999999, "line,infinite\n");

/// Two units with opposite lists: 2 calls of 17 are lost.
pub const TWO_UNITS: &str = two_units!("", 1, "prefer,P,A,B\nprefer,Q,B,A\n");

/// The same units, if calls that find both busy wait.
pub const TWO_UNITS_WITH_A_QUEUE: &str = two_units!(
    "",
    1,
    "prefer,P,A,B\nprefer,Q,B,A\nline,infinite\n"
);

/// Two like units with opposite lists, if no calls come from the atom of the second.
pub const WITHOUT_CALLS: &str = two_units!("", 0, "prefer,P,A,B\nprefer,Q,B,A\n");

/// Two units at one atom, the first of which is sent first.
pub const ONE_LIST: &str = "\
unit,A,3
unit,B,3
atom,P,2,0,0,A
travel,P,P,300
at,A,P,1000
at,B,P,1000
prefer,P,A,B
";

/// Two like units, of which chance sends one to each call.
pub const ONE_GROUP: &str = two_units!("version,2\n", 1, "group,P,A,B\ngroup,Q,A,B\n");

/// Three units, so seldom busy that the third is next to never sent.
pub const THREE_UNITS: &str = "\
unit,A,300000
unit,B,300000
unit,C,300000
atom,P,1,0,0,A
travel,P,P,300
at,A,P,1000
at,B,P,1000
at,C,P,1000
prefer,P,A,B,C
";

/// Three unlike units, in lists with groups and without, and calls wait.
pub const THREE_UNLIKE: &str = "\
version,2
line,infinite
period,86400
unit,A,7
unit,B,5
unit,C,11
atom,P,4,0,0,A
atom,Q,6,9,0,B
atom,R,3,9,9,C
travel,P,P,90
travel,P,Q,410
travel,P,R,720
travel,Q,P,380
travel,Q,Q,60
travel,Q,R,300
travel,R,P,700
travel,R,Q,290
travel,R,R,80
at,A,P,800
at,A,Q,200
at,B,Q,1000
at,C,R,650
at,C,P,350
group,P,A
group,P,C,B
group,Q,B,A
group,Q,C
prefer,R,C,B,A
";

/// Two units at one atom, and two atoms at one place. It has no rule yet.
pub const BOTH_AT_ONE: &str = "\
unit,A,3
unit,B,3
atom,P,1,0,0,A
atom,Q,1,0,0,B
travel,P,P,60
travel,P,Q,300
travel,Q,P,300
travel,Q,Q,60
at,A,P,1000
at,B,P,1000
";

/// Two units and an atom between them, nearer to the unit that does not have it in its district. It has no rule yet.
pub const BETWEEN: &str = "\
unit,A,3
unit,B,3
atom,P,1,0,0,A
atom,R,3,120,0,A
atom,Q,1,200,0,B
travel,P,P,60
travel,P,R,60
travel,P,Q,60
travel,R,P,60
travel,R,R,60
travel,R,Q,60
travel,Q,P,60
travel,Q,R,60
travel,Q,Q,60
at,A,P,1000
at,B,Q,1000
";

/// Three unlike units, one of them first for most calls, and an atom without calls.
pub const THREE_IN_TURN: &str = "\
unit,A,7
unit,B,5
unit,C,11
atom,P,4,0,0,A
atom,Q,6,9,0,B
atom,R,0,9,9,C
atom,S,3,0,9,C
travel,P,P,90
travel,P,Q,90
travel,P,R,90
travel,P,S,90
travel,Q,P,90
travel,Q,Q,90
travel,Q,R,90
travel,Q,S,90
travel,R,P,90
travel,R,Q,90
travel,R,R,90
travel,R,S,90
travel,S,P,90
travel,S,Q,90
travel,S,R,90
travel,S,S,90
at,A,P,1000
at,B,Q,1000
at,C,R,1000
prefer,P,A,B,C
prefer,Q,B,C,A
prefer,R,C,B,A
prefer,S,A,C,B
";
