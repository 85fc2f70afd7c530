use crate::cases::Text::{Changed, Filled, Plain};
use crate::cases::Written::{Begins, Whole};
use crate::cases::{Ended, check_all, run};
use hypercube_cli::status;
use rate_matrix::OpenGate;
use std::alloc::{AllocError, Global};
use std::test::Fail;

#[test]
fn studies_end_so(rt: HostRuntime) -> Result<(), Fail> {
    check_all(&rt, rt.alloc(), STUDIES)
}

const STUDY: &str = "compare s.toml";

pub(crate) const TWO_AND_HALF: &str =
    "plans = [\"two.csv\", \"half.csv\"]\nmeasures = [\"loss\"]\n";

pub(crate) const TWO_AND_HALF_COMPARED: &str =
    "study,1\nplans,2\nvalue,loss,1,0.117647,0.117648\nvalue,loss,2,0.333333,0.333334\nverdict,loss,1,2,below\nend\n";

const EVERY_MEASURE: &str = "\
study,1
plans,2
value,loss,1,0.333333,0.333334
value,loss,2,0.333333,0.333334
verdict,loss,1,2,not separated
value,delay,1,0.000000,0.000000
value,delay,2,0.000000,0.000000
verdict,delay,1,2,not separated
value,queue,1,0.000000,0.000000
value,queue,2,0.000000,0.000000
verdict,queue,1,2,not separated
value,wait,1,0.000,0.000
value,wait,2,0.000,0.000
verdict,wait,1,2,not separated
value,interdistrict,1,0.000000,0.000000
value,interdistrict,2,0.000000,0.000000
verdict,interdistrict,1,2,not separated
value,travel,1,300.000,300.000
value,travel,2,300.000,300.000
verdict,travel,1,2,not separated
end
";

const THREE_PLANS: &str = "\
study,1
plans,3
value,travel,1,300.000,300.000
value,travel,2,107.999,108.001
value,travel,3,300.000,300.000
verdict,travel,1,2,above
verdict,travel,1,3,not separated
verdict,travel,2,3,below
end
";

const THREE_LOSSES: &str = "\
study,1
plans,3
value,loss,1,0.333333,0.333334
value,loss,2,0.333334,0.333335
value,loss,3,0.249999,0.250001
verdict,loss,1,2,not separated
verdict,loss,1,3,above
verdict,loss,2,3,above
end
";

/// Studies that are compared, those of another form, of unknown measures or of too few plans, and last those whose plans
/// are refused or absent.
const STUDIES: &[Ended] = &[
    (
        "compare s.toml --workers 2",
        Plain(TWO_AND_HALF),
        0,
        Whole(TWO_AND_HALF_COMPARED),
    ),
    (
        "compare s.toml --workers 2",
        Plain("plans = ['half.csv', 'two.csv']\nmeasures = ['loss']"),
        0,
        Whole(
            "study,1\nplans,2\nvalue,loss,1,0.333333,0.333334\nvalue,loss,2,0.117647,0.117648\nverdict,loss,1,2,above\nend\n",
        ),
    ),
    (
        STUDY,
        Plain(
            "measures = ['loss', 'delay', 'queue', 'wait', 'interdistrict', 'travel']\nplans = ['half.csv', 'half.csv']",
        ),
        0,
        Whole(EVERY_MEASURE),
    ),
    (
        "compare s.toml --workers 3",
        Plain("plans = ['half.csv', 'two.csv', 'more.csv']\nmeasures = ['travel']"),
        0,
        Whole(THREE_PLANS),
    ),
    (
        STUDY,
        Plain("plans = ['half.csv', 'more.csv', 'third.csv']\nmeasures = ['loss']"),
        0,
        Whole(THREE_LOSSES),
    ),
    (
        "compare s.toml --width 2",
        Plain("plans = ['third.csv', 'swamped.csv']\nmeasures = ['loss', 'interdistrict']"),
        3,
        Begins("toowide,2,interdistrict,0."),
    ),
    (STUDY, Plain("plans = 3\n"), 2, Whole("refused,0,60\n")),
    (STUDY, Plain(""), 2, Whole("refused,0,60\n")),
    (
        STUDY,
        Plain("plans = ['a', 'b']\n"),
        2,
        Whole("refused,0,60\n"),
    ),
    (
        STUDY,
        Plain("measures = ['loss']\n"),
        2,
        Whole("refused,0,60\n"),
    ),
    (
        STUDY,
        Plain("plans = ['a', 'b']\nmeasures = ['loss']\ntitle = 't'\n"),
        2,
        Whole("refused,0,60\n"),
    ),
    (
        STUDY,
        Plain("plans = ['a', 'b']\nmeasures = 'loss'\n"),
        2,
        Whole("refused,0,60\n"),
    ),
    (
        STUDY,
        Plain("plans = ['a', 2]\nmeasures = ['loss']\n"),
        2,
        Whole("refused,0,60\n"),
    ),
    (
        STUDY,
        Plain("plans = ['a', '']\nmeasures = ['loss']\n"),
        2,
        Whole("refused,0,60\n"),
    ),
    (
        STUDY,
        Plain("plans = ['a', 'b']\nmeasures = []\n"),
        2,
        Whole("refused,0,60\n"),
    ),
    (
        STUDY,
        Plain("plans = ['a', 'b'\nmeasures = ['loss']\n"),
        2,
        Whole("refused,0,60\n"),
    ),
    (
        STUDY,
        Plain("plans = ['a', 'b']\nplans = ['a', 'b']\nmeasures = ['loss']\n"),
        2,
        Whole("refused,0,60\n"),
    ),
    (
        STUDY,
        Changed("plans = ['a', 'b']\nmeasures = ['loss']\n", "b", b"\xff"),
        2,
        Whole("refused,0,60\n"),
    ),
    (STUDY, Filled("", 4_194_304), 2, Whole("refused,0,60\n")),
    (
        STUDY,
        Filled("", 4_194_305),
        2,
        Whole("refused,0,63,4194305\n"),
    ),
    (
        STUDY,
        Plain("plans = ['a', 'b']\nmeasures = ['loss', 'speed', 'Loss']\n"),
        2,
        Whole("refused,0,61,2\n"),
    ),
    (
        STUDY,
        Plain("plans = ['a', 'b']\nmeasures = ['workload']\n"),
        2,
        Whole("refused,0,61,1\n"),
    ),
    (
        STUDY,
        Plain("plans = []\nmeasures = ['speed']\n"),
        2,
        Whole("refused,0,62,0\n"),
    ),
    (
        STUDY,
        Plain("plans = ['half.csv']\nmeasures = ['loss']\n"),
        2,
        Whole("refused,0,62,1\n"),
    ),
    (
        STUDY,
        Plain("plans = ['half.csv', 'none.csv', 'bad.csv']\nmeasures = ['loss']\n"),
        4,
        Whole(""),
    ),
    (
        STUDY,
        Plain("plans = ['half.csv', 'bad.csv', 'none.csv']\nmeasures = ['loss']\n"),
        2,
        Whole("refused,2,3,1\n"),
    ),
    (
        STUDY,
        Plain("plans = ['bad.csv', 'half.csv']\nmeasures = ['loss']\n"),
        2,
        Whole("refused,1,3,1\n"),
    ),
];

/// A study of so many plans and measures, whose first plan has a name of so many bytes.
fn study_text(
    alloc: Global,
    plans: usize,
    measures: usize,
    bytes: usize,
) -> Result<String, AllocError> {
    let mut text = String::from_str(alloc, "plans = [\"")?;
    for _ in 0..bytes {
        text.push('n')?;
    }
    text.push('"')?;
    for _ in 1..plans {
        text.push_str(", \"p\"")?;
    }
    text.push_str("]\nmeasures = [\"wait\"")?;
    for _ in 1..measures {
        text.push_str(", \"wait\"")?;
    }
    text.push_str("]\n")?;
    Ok(text)
}

/// Plans, measures and the bytes of a name, up to the most and beyond. A study that is read asks for plans that no shelf
/// has.
const LIMITS: [(usize, usize, usize, u8, &str); 7] = [
    (2, 16, 255, 4, ""),
    (16, 1, 1, 4, ""),
    (2, 17, 1, 2, "refused,0,60\n"),
    (2, 1, 256, 2, "refused,0,60\n"),
    (17, 1, 256, 2, "refused,0,60\n"),
    (1, 1, 1, 2, "refused,0,62,1\n"),
    (17, 1, 1, 2, "refused,0,62,17\n"),
];

#[test]
fn limits_of_a_study(rt: HostRuntime) -> Result<(), Fail> {
    for (plans, measures, bytes, wanted, written) in LIMITS {
        let text = study_text(rt.alloc(), plans, measures, bytes)?;
        let (got, found) = run(&rt, rt.alloc(), STUDY, text.as_bytes(), &OpenGate)?;
        assert_eq!(rt; status(&got), wanted);
        assert_eq!(rt; found.as_slice(), written.as_bytes());
    }
    Ok(())
}
