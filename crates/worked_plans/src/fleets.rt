//! Fleets whose crews stand at stations, and one of them with a unit for each crew.

/// Three crews of A, which serve two calls each, and two of B, which serve three; and what else is said.
macro_rules! five_crews {
    ($last:literal) => {
        concat!(
            "\
version,3
unit,A,2
unit,B,3
crews,A,3
crews,B,2
atom,P,4,0,0,A
atom,Q,3,9,0,B
travel,P,P,60
travel,P,Q,300
travel,Q,P,240
travel,Q,Q,90
at,A,P,1000
at,B,P,250
at,B,Q,750
prefer,P,A,B
prefer,Q,B,A
",
            $last
        )
    };
}

/// The same crews as units of a plan: those of a station are a group in each list.
macro_rules! five_units {
    ($last:literal) => {
        concat!(
            "\
version,2
unit,A1,2
unit,A2,2
unit,A3,2
unit,B1,3
unit,B2,3
atom,P,4,0,0,A1
atom,Q,3,9,0,B1
travel,P,P,60
travel,P,Q,300
travel,Q,P,240
travel,Q,Q,90
at,A1,P,1000
at,A2,P,1000
at,A3,P,1000
at,B1,P,250
at,B1,Q,750
at,B2,P,250
at,B2,Q,750
group,P,A1,A2,A3
group,P,B1,B2
group,Q,B1,B2
group,Q,A1,A2,A3
",
            $last
        )
    };
}

/// Five crews at two stations: twelve states, and calls that find all crews busy are lost.
pub const FIVE_CREWS: &str = five_crews!("");

/// The same crews, if such calls wait.
pub const FIVE_CREWS_WITH_A_QUEUE: &str = five_crews!("line,infinite\n");

/// The five crews one by one, as the units of a plan.
pub const FIVE_CREWS_APART: &str = five_units!("");

/// The same units, if calls that find all of them busy wait.
pub const FIVE_CREWS_APART_WITH_A_QUEUE: &str = five_units!("line,infinite\n");

/// Seven crews at three stations of unlike size and rate, with twice as many calls as they can serve; none of them comes from
/// the district of the last.
pub const SEVEN_CREWS: &str = "\
version,3
unit,A,4
unit,B,1
unit,C,7
crews,A,4
crews,C,2
atom,P,30,0,0,A
atom,Q,24,9,0,B
atom,R,0,9,9,C
travel,P,P,60
travel,P,Q,300
travel,P,R,420
travel,Q,P,240
travel,Q,Q,90
travel,Q,R,180
travel,R,P,400
travel,R,Q,200
travel,R,R,30
at,A,P,1000
at,B,Q,1000
at,C,R,1000
prefer,P,A,C,B
prefer,Q,C,B,A
prefer,R,C,A,B
";
