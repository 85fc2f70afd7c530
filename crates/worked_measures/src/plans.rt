use worked_plans::{
    ALL_BUT_FULL, HALF_LOAD, ONE_GROUP, ONE_LIST, TEN_LOADS, THIRD_LOAD, THIRD_LOAD_WITH_A_QUEUE,
    THREE_UNITS, THREE_UNLIKE, TWO_UNITS, WITHOUT_CALLS,
};

/// A plan, its masses by rank if they are whole numbers that a hand finds, with that of the calls that wait last, and
/// all its measures in the order of the report, each by its word, its subject and its ends.
///
/// The ends are from outside: a second program, which shares no code with this one, found them in whole numbers.
#[derive(Clone, Copy)]
pub(crate) struct Solved {
    pub text: &'static str,
    pub masses: &'static [u64],
    pub measures: &'static str,
}

pub(crate) const PLANS: [Solved; 11] = [
    // One unit, half as many calls as services.
    Solved {
        text: HALF_LOAD,
        masses: &[2, 1],
        measures: "\
loss Region Ends(333333, 333334)
workload Unit(0) Ends(333333, 333334)
dispatch UnitAndAtom(0, 0) Ends(1000000, 1000000)
interdistrict Region Ends(0, 0)
interdistrict-unit Unit(0) Ends(0, 0)
interdistrict-district District(0) Ends(0, 0)
travel Region Ends(300000, 300000)
travel-atom Atom(0) Ends(300000, 300000)
travel-unit Unit(0) Ends(300000, 300000)
travel-district District(0) Ends(300000, 300000)
",
    },
    // One unit, a third as many calls as services.
    Solved {
        text: THIRD_LOAD,
        masses: &[3, 1],
        measures: "\
loss Region Ends(249999, 250001)
workload Unit(0) Ends(249999, 250001)
dispatch UnitAndAtom(0, 0) Ends(1000000, 1000000)
interdistrict Region Ends(0, 0)
interdistrict-unit Unit(0) Ends(0, 0)
interdistrict-district District(0) Ends(0, 0)
travel Region Ends(300000, 300000)
travel-atom Atom(0) Ends(300000, 300000)
travel-unit Unit(0) Ends(300000, 300000)
travel-district District(0) Ends(300000, 300000)
",
    },
    // One unit, ten calls for each service.
    Solved {
        text: TEN_LOADS,
        masses: &[1, 10],
        measures: "\
loss Region Ends(909090, 909091)
workload Unit(0) Ends(909090, 909091)
dispatch UnitAndAtom(0, 0) Ends(1000000, 1000000)
interdistrict Region Ends(0, 0)
interdistrict-unit Unit(0) Ends(0, 0)
interdistrict-district District(0) Ends(0, 0)
travel Region Ends(300000, 300000)
travel-atom Atom(0) Ends(300000, 300000)
travel-unit Unit(0) Ends(300000, 300000)
travel-district District(0) Ends(300000, 300000)
",
    },
    // One unit, a third as many calls as services, and calls wait.
    Solved {
        text: THIRD_LOAD_WITH_A_QUEUE,
        masses: &[6, 2, 1],
        measures: "\
delay Region Ends(333333, 333334)
queue Region Ends(166666, 166667)
wait Region Ends(599999, 600001)
workload Unit(0) Ends(333333, 333334)
dispatch UnitAndAtom(0, 0) Ends(999999, 1000000)
interdistrict Region Ends(0, 0)
interdistrict-unit Unit(0) Ends(0, 0)
interdistrict-district District(0) Ends(0, 0)
travel Region Ends(299999, 300000)
travel-atom Atom(0) Ends(299999, 300000)
travel-unit Unit(0) Ends(299999, 300000)
travel-district District(0) Ends(299999, 300000)
",
    },
    // One unit, nearly as many calls as services, and calls wait.
    Solved {
        text: ALL_BUT_FULL,
        masses: &[1_000_000, 999_999, 999_998_000_001],
        measures: "\
delay Region Ends(999998, 1000000)
queue Region Ends(999998000000, 999998000002)
wait Region Ends(3599996, 3599997)
workload Unit(0) Ends(999998, 1000000)
dispatch UnitAndAtom(0, 0) Ends(999999, 1000000)
interdistrict Region Ends(0, 0)
interdistrict-unit Unit(0) Ends(0, 0)
interdistrict-district District(0) Ends(0, 0)
travel Region Ends(299999, 300000)
travel-atom Atom(0) Ends(299999, 300000)
travel-unit Unit(0) Ends(299999, 300000)
travel-district District(0) Ends(299999, 300000)
",
    },
    // Two units with opposite lists.
    Solved {
        text: TWO_UNITS,
        masses: &[9, 3, 3, 2],
        measures: "\
loss Region Ends(117647, 117648)
workload Unit(0) Ends(294117, 294118)
workload Unit(1) Ends(294117, 294118)
dispatch UnitAndAtom(0, 0) Ends(399999, 400001)
dispatch UnitAndAtom(0, 1) Ends(99999, 100001)
dispatch UnitAndAtom(1, 0) Ends(99999, 100001)
dispatch UnitAndAtom(1, 1) Ends(399999, 400001)
interdistrict Region Ends(199999, 200001)
interdistrict-unit Unit(0) Ends(199999, 200001)
interdistrict-unit Unit(1) Ends(199999, 200001)
interdistrict-district District(0) Ends(199999, 200001)
interdistrict-district District(1) Ends(199999, 200001)
travel Region Ends(107999, 108001)
travel-atom Atom(0) Ends(107999, 108001)
travel-atom Atom(1) Ends(107999, 108001)
travel-unit Unit(0) Ends(107999, 108001)
travel-unit Unit(1) Ends(107999, 108001)
travel-district District(0) Ends(107999, 108001)
travel-district District(1) Ends(107999, 108001)
",
    },
    // Two units, and no calls from one atom.
    Solved {
        text: WITHOUT_CALLS,
        masses: &[],
        measures: "\
loss Region Ends(39999, 40001)
workload Unit(0) Ends(249999, 250001)
workload Unit(1) Ends(69999, 70001)
dispatch UnitAndAtom(0, 0) Ends(781249, 781251)
dispatch UnitAndAtom(0, 1) Ends(0, 0)
dispatch UnitAndAtom(1, 0) Ends(218749, 218751)
dispatch UnitAndAtom(1, 1) Ends(0, 0)
interdistrict Region Ends(218749, 218751)
interdistrict-unit Unit(0) Ends(0, 0)
interdistrict-unit Unit(1) Ends(1000000, 1000000)
interdistrict-district District(0) Ends(218749, 218751)
interdistrict-district District(1) Without
travel Region Ends(112499, 112501)
travel-atom Atom(0) Ends(112499, 112501)
travel-atom Atom(1) Ends(67499, 67501)
travel-unit Unit(0) Ends(59999, 60001)
travel-unit Unit(1) Ends(299999, 300000)
travel-district District(0) Ends(112499, 112501)
travel-district District(1) Without
",
    },
    // Two units at one place, the second never first.
    Solved {
        text: ONE_LIST,
        masses: &[45, 24, 6, 10],
        measures: "\
loss Region Ends(117647, 117648)
workload Unit(0) Ends(399999, 400001)
workload Unit(1) Ends(188235, 188236)
dispatch UnitAndAtom(0, 0) Ends(679999, 680001)
dispatch UnitAndAtom(1, 0) Ends(319999, 320001)
interdistrict Region Ends(319999, 320001)
interdistrict-unit Unit(0) Ends(0, 0)
interdistrict-unit Unit(1) Ends(1000000, 1000000)
interdistrict-district District(0) Ends(319999, 320001)
interdistrict-district District(1) Without
travel Region Ends(299999, 300000)
travel-atom Atom(0) Ends(299999, 300000)
travel-unit Unit(0) Ends(299999, 300000)
travel-unit Unit(1) Ends(299999, 300000)
travel-district District(0) Ends(299999, 300000)
travel-district District(1) Without
",
    },
    // Two units in one group.
    Solved {
        text: ONE_GROUP,
        masses: &[9, 3, 3, 2],
        measures: "\
loss Region Ends(117647, 117648)
workload Unit(0) Ends(294117, 294118)
workload Unit(1) Ends(294117, 294118)
dispatch UnitAndAtom(0, 0) Ends(249999, 250001)
dispatch UnitAndAtom(0, 1) Ends(249999, 250001)
dispatch UnitAndAtom(1, 0) Ends(249999, 250001)
dispatch UnitAndAtom(1, 1) Ends(249999, 250001)
interdistrict Region Ends(499999, 500001)
interdistrict-unit Unit(0) Ends(499999, 500001)
interdistrict-unit Unit(1) Ends(499999, 500001)
interdistrict-district District(0) Ends(499999, 500001)
interdistrict-district District(1) Ends(499999, 500001)
travel Region Ends(179999, 180001)
travel-atom Atom(0) Ends(179999, 180001)
travel-atom Atom(1) Ends(179999, 180001)
travel-unit Unit(0) Ends(179999, 180001)
travel-unit Unit(1) Ends(179999, 180001)
travel-district District(0) Ends(179999, 180001)
travel-district District(1) Ends(179999, 180001)
",
    },
    // Three units at one place, hardly ever busy.
    Solved {
        text: THREE_UNITS,
        masses: &[],
        measures: "\
loss Region Ends(0, 1)
workload Unit(0) Ends(3, 4)
workload Unit(1) Ends(0, 1)
workload Unit(2) Ends(0, 1)
dispatch UnitAndAtom(0, 0) Ends(999996, 999997)
dispatch UnitAndAtom(1, 0) Ends(3, 4)
dispatch UnitAndAtom(2, 0) Ends(0, 1)
interdistrict Region Ends(3, 4)
interdistrict-unit Unit(0) Ends(0, 0)
interdistrict-unit Unit(1) Ends(1000000, 1000000)
interdistrict-unit Unit(2) Ends(1000000, 1000000)
interdistrict-district District(0) Ends(3, 4)
interdistrict-district District(1) Without
interdistrict-district District(2) Without
travel Region Ends(299999, 300000)
travel-atom Atom(0) Ends(299999, 300000)
travel-unit Unit(0) Ends(299999, 300000)
travel-unit Unit(1) Ends(299999, 300000)
travel-unit Unit(2) Ends(299987, 300000)
travel-district District(0) Ends(299999, 300000)
travel-district District(1) Without
travel-district District(2) Without
",
    },
    // Three unlike units, groups, and calls wait.
    Solved {
        text: THREE_UNLIKE,
        masses: &[],
        measures: "\
delay Region Ends(328779, 328780)
queue Region Ends(427413, 427414)
wait Region Ends(2840656, 2840657)
workload Unit(0) Ends(641294, 641295)
workload Unit(1) Ends(644541, 644542)
workload Unit(2) Ends(480748, 480749)
dispatch UnitAndAtom(0, 0) Ends(141159, 141160)
dispatch UnitAndAtom(0, 1) Ends(168231, 168232)
dispatch UnitAndAtom(0, 2) Ends(35921, 35922)
dispatch UnitAndAtom(1, 0) Ends(55629, 55630)
dispatch UnitAndAtom(1, 1) Ends(153537, 153538)
dispatch UnitAndAtom(1, 2) Ends(38733, 38734)
dispatch UnitAndAtom(2, 0) Ends(110903, 110904)
dispatch UnitAndAtom(2, 1) Ends(139769, 139770)
dispatch UnitAndAtom(2, 2) Ends(156114, 156115)
interdistrict Region Ends(549188, 549189)
interdistrict-unit Unit(0) Ends(591211, 591212)
interdistrict-unit Unit(1) Ends(380649, 380650)
interdistrict-unit Unit(2) Ends(616226, 616227)
interdistrict-district District(0) Ends(541231, 541232)
interdistrict-district District(1) Ends(667335, 667336)
interdistrict-district District(2) Ends(323505, 323506)
travel Region Ends(280932, 280933)
travel-atom Atom(0) Ends(313362, 313363)
travel-atom Atom(1) Ends(226501, 226502)
travel-atom Atom(2) Ends(346553, 346554)
travel-unit Unit(0) Ends(278449, 278450)
travel-unit Unit(1) Ends(194556, 194557)
travel-unit Unit(2) Ends(335677, 335678)
travel-district District(0) Ends(313362, 313363)
travel-district District(1) Ends(226501, 226502)
travel-district District(2) Ends(346553, 346554)
",
    },
];
