use crate::cases::Text::{self, Changed, Counted, Cut, Filled, Longer, Noted, Plain, Repeated};
use crate::cases::{Case, Written, check};
use crate::reports::HALF_LOAD_REPORT;
use hypercube_cli::{Outcome, Refusal};
use plan_reader::PlanRefusal::{self, *};
use std::test::Fail;
use worked_plans::*;

#[test]
fn spoiled_texts_end_so(rt: HostRuntime) -> Result<(), Fail> {
    for spoiled in SPOILED {
        let (outcome, status, written) = wanted_of(&spoiled.end);
        let case = Case {
            name: spoiled.name,
            line: "solve a.csv",
            text: spoiled.text,
            status,
            written: Written::Whole(written),
        };
        assert_eq!(rt; check(&rt, rt.alloc(), &case)?, outcome, "{}", spoiled.name);
    }
    Ok(())
}

/// How a run ends, its status, and what it writes.
fn wanted_of(end: &End) -> (Outcome, u8, &'static str) {
    match *end {
        End::Reported => (Outcome::Done, 0, HALF_LOAD_REPORT),
        End::Refused(refusal, row) => (Outcome::Refused(Refusal::Plan(1, refusal)), 2, row),
    }
}

/// A plan's text after a slip of the hand, of a spreadsheet or of a transfer, and how the run that solves it ends.
#[derive(Clone, Copy)]
struct Spoiled {
    name: &'static str,
    text: Text,
    end: End,
}

#[derive(Clone, Copy)]
enum End {
    /// With the report on the plan of one unit at half load.
    Reported,
    /// With this refusal, and this row that says so.
    Refused(PlanRefusal, &'static str),
}

const SPOILED: &[Spoiled] = &[
    Spoiled {
        name: "fields in quotes",
        text: Changed(HALF_LOAD, "unit,A,2", b"\"unit\",A,\"2\""),
        end: End::Reported,
    },
    Spoiled {
        name: "blanks around fields, and empty fields after them",
        text: Changed(HALF_LOAD, "unit,A,2", b" unit , A , 2 ,,,"),
        end: End::Reported,
    },
    Spoiled {
        name: "records in reverse",
        text: Plain("prefer,P,A\nat,A,P,1000\ntravel,P,P,300\natom,P,1,0,0,A\nunit,A,2\n"),
        end: End::Reported,
    },
    Spoiled {
        name: "zeros before a number of nine digits",
        text: Changed(HALF_LOAD, "unit,A,2", b"unit,A,000000002"),
        end: End::Reported,
    },
    Spoiled {
        name: "cut after 20 bytes",
        text: Cut(HALF_LOAD, 20),
        end: End::Refused(FieldCount(2), "refused,1,4,2\n"),
    },
    Spoiled {
        name: "cut after 39 bytes",
        text: Cut(HALF_LOAD, 39),
        end: End::Refused(LocationSum(1, 0), "refused,1,31,1,0\n"),
    },
    Spoiled {
        name: "cut after 51 bytes",
        text: Cut(HALF_LOAD, 51),
        end: End::Refused(MissingList(1), "refused,1,40,1\n"),
    },
    Spoiled {
        name: "a kind in capitals",
        text: Changed(HALF_LOAD, "unit,A,2", b"Unit,A,2"),
        end: End::Refused(UnknownKind(1), "refused,1,3,1\n"),
    },
    Spoiled {
        name: "a name that is no text",
        text: Changed(HALF_LOAD, "unit,A,2", b"unit,\xff,2"),
        end: End::Refused(NotUtf8(1), "refused,1,1,1\n"),
    },
    Spoiled {
        name: "a kind that is no text",
        text: Changed(HALF_LOAD, "unit,A,2", b"\xff,A,2"),
        end: End::Refused(UnknownKind(1), "refused,1,3,1\n"),
    },
    Spoiled {
        name: "a rate of 0",
        text: Changed(HALF_LOAD, "unit,A,2", b"unit,A,0"),
        end: End::Refused(BadNumber(1, 3), "refused,1,5,1,3\n"),
    },
    Spoiled {
        name: "a number of ten digits",
        text: Changed(HALF_LOAD, "unit,A,2", b"unit,A,0000000002"),
        end: End::Refused(BadNumber(1, 3), "refused,1,5,1,3\n"),
    },
    Spoiled {
        name: "a rate of more than a million",
        text: Changed(HALF_LOAD, "unit,A,2", b"unit,A,1000001"),
        end: End::Refused(BadNumber(1, 3), "refused,1,5,1,3\n"),
    },
    Spoiled {
        name: "a fraction",
        text: Changed(HALF_LOAD, "atom,P,1,", b"atom,P,1.5,"),
        end: End::Refused(BadNumber(2, 3), "refused,1,5,2,3\n"),
    },
    Spoiled {
        name: "two fields in one pair of quotes",
        text: Changed(HALF_LOAD, "unit,A,2", b"unit,\"A,2\""),
        end: End::Refused(FieldCount(1), "refused,1,4,1\n"),
    },
    Spoiled {
        name: "a name with a comma",
        text: Changed(HALF_LOAD, "unit,A,2", b"unit,\"A,B\",2"),
        end: End::Refused(BadName(1, 2), "refused,1,6,1,2\n"),
    },
    Spoiled {
        name: "a name of 33 letters",
        text: Changed(
            HALF_LOAD,
            "unit,A,2",
            b"unit,NNNNNNNNNNNNNNNNNNNNNNNNNNNNNNNNN,2",
        ),
        end: End::Refused(BadName(1, 2), "refused,1,6,1,2\n"),
    },
    Spoiled {
        name: "a unit twice",
        text: Longer(HALF_LOAD, "unit,A,3\n"),
        end: End::Refused(DuplicateUnit(6), "refused,1,11,6\n"),
    },
    Spoiled {
        name: "an atom twice",
        text: Longer(HALF_LOAD, "atom,P,1,0,0,A\n"),
        end: End::Refused(DuplicateAtom(6), "refused,1,10,6\n"),
    },
    Spoiled {
        name: "a setting twice",
        text: Longer(HALF_LOAD, "line,zero\nline,zero\n"),
        end: End::Refused(SettingTwice(7), "refused,1,51,7\n"),
    },
    Spoiled {
        name: "an unknown version",
        text: Longer(HALF_LOAD, "version,3\n"),
        end: End::Refused(Version(6), "refused,1,50,6\n"),
    },
    Spoiled {
        name: "a trip twice",
        text: Longer(HALF_LOAD, "travel,P,P,1\n"),
        end: End::Refused(DuplicateTravel(6), "refused,1,20,6\n"),
    },
    Spoiled {
        name: "a unit twice at one atom",
        text: Longer(HALF_LOAD, "at,A,P,1\n"),
        end: End::Refused(DuplicateLocation(6), "refused,1,30,6\n"),
    },
    Spoiled {
        name: "thirteen units",
        text: Counted(HALF_LOAD, "unit,U", ",1\n", 12),
        end: End::Refused(TooManyUnits(17), "refused,1,13,17\n"),
    },
    Spoiled {
        name: "201 atoms",
        text: Counted(TWO_UNITS, "atom,X", ",1,0,0,A\n", 199),
        end: End::Refused(TooManyAtoms(211), "refused,1,12,211\n"),
    },
    Spoiled {
        name: "50,000 notes before the records",
        text: Noted(HALF_LOAD, 50_000),
        end: End::Refused(TooManyRecords(50_001), "refused,1,7,50001\n"),
    },
    Spoiled {
        name: "one record too many",
        text: Noted(HALF_LOAD, 49_996),
        end: End::Refused(TooManyRecords(50_001), "refused,1,7,50001\n"),
    },
    Spoiled {
        name: "the most records",
        text: Noted(HALF_LOAD, 49_995),
        end: End::Reported,
    },
    Spoiled {
        name: "one byte too many",
        text: Filled(HALF_LOAD, 4_194_243),
        end: End::Refused(TooLong(4_194_305), "refused,1,2,4194305\n"),
    },
    Spoiled {
        name: "the most bytes",
        text: Filled(HALF_LOAD, 4_194_242),
        end: End::Reported,
    },
    Spoiled {
        name: "one row of 4 MiB",
        text: Repeated("unit,", 838_860),
        end: End::Refused(FieldCount(1), "refused,1,4,1\n"),
    },
    Spoiled {
        name: "one field of 4 MiB",
        text: Repeated("a", 4_194_304),
        end: End::Refused(UnknownKind(1), "refused,1,3,1\n"),
    },
    Spoiled {
        name: "4 MiB of commas",
        text: Repeated(",", 4_194_304),
        end: End::Refused(NoUnits, "refused,1,15\n"),
    },
    Spoiled {
        name: "60,000 rows of one letter",
        text: Repeated("a\n", 60_000),
        end: End::Refused(UnknownKind(1), "refused,1,3,1\n"),
    },
    Spoiled {
        name: "60,000 rows of one comma",
        text: Repeated(",\n", 60_000),
        end: End::Refused(TooManyRecords(50_001), "refused,1,7,50001\n"),
    },
    Spoiled {
        name: "4 MiB of empty rows",
        text: Repeated("\r\n", 2_097_152),
        end: End::Refused(NoUnits, "refused,1,15\n"),
    },
    Spoiled {
        name: "an empty text",
        text: Plain(""),
        end: End::Refused(NoUnits, "refused,1,15\n"),
    },
    Spoiled {
        name: "only a note",
        text: Plain("note,hello\n"),
        end: End::Refused(NoUnits, "refused,1,15\n"),
    },
    Spoiled {
        name: "only a unit",
        text: Plain("unit,A,3\n"),
        end: End::Refused(NoAtoms, "refused,1,16\n"),
    },
    Spoiled {
        name: "rows that end in a carriage return",
        text: Plain("unit,A,2\ratom,P,1,0,0,A\rtravel,P,P,300\rat,A,P,1000\rprefer,P,A\r"),
        end: End::Reported,
    },
    Spoiled {
        name: "rows that end in either way, and some without fields",
        text: Plain(
            "unit,A,2\natom,P,1,0,0,A\r\n\r\n,,\r\nnote,a trip\n\ntravel,P,P,300\n\tat\t,A,P,1000\nprefer,P,A",
        ),
        end: End::Reported,
    },
    Spoiled {
        name: "a quote that is never closed",
        text: Changed(HALF_LOAD, "unit,A,2", b"unit,\"A,2"),
        end: End::Refused(FieldCount(1), "refused,1,4,1\n"),
    },
    Spoiled {
        name: "a last field whose quote is never closed",
        text: Changed(HALF_LOAD, "prefer,P,A", b"prefer,P,\"A"),
        end: End::Refused(BadName(5, 3), "refused,1,6,5,3\n"),
    },
    Spoiled {
        name: "a note with quotes and a line feed in quotes",
        text: Changed(
            HALF_LOAD,
            "unit,A,2",
            b"note,\"one \"\"row\"\"\nunit\"\nunit,A,2",
        ),
        end: End::Reported,
    },
    Spoiled {
        name: "a name with a quote",
        text: Changed(HALF_LOAD, "unit,A,2", b"unit,\"A\"\"B\",2"),
        end: End::Refused(BadName(1, 2), "refused,1,6,1,2\n"),
    },
    Spoiled {
        name: "a kind with text after its closing quote",
        text: Changed(HALF_LOAD, "unit,A,2", b"\"un\"it,A,2"),
        end: End::Reported,
    },
    Spoiled {
        name: "a name with text after its closing quote",
        text: Changed(HALF_LOAD, "unit,A,2", b"unit,\"A\"B,2"),
        end: End::Refused(UnknownName(2, 6), "refused,1,14,2,6\n"),
    },
    Spoiled {
        name: "two byte order marks",
        text: Changed(HALF_LOAD, "unit,A,2", b"\xEF\xBB\xBF\xEF\xBB\xBFunit,A,2"),
        end: End::Reported,
    },
    Spoiled {
        name: "a byte order mark before the second row",
        text: Changed(HALF_LOAD, "atom,", b"\xEF\xBB\xBFatom,"),
        end: End::Refused(UnknownKind(2), "refused,1,3,2\n"),
    },
    Spoiled {
        name: "half a byte order mark",
        text: Changed(HALF_LOAD, "unit,A,2", b"\xEF\xBBunit,A,2"),
        end: End::Refused(UnknownKind(1), "refused,1,3,1\n"),
    },
    Spoiled {
        name: "a no-break space before a number",
        text: Changed(HALF_LOAD, "unit,A,2", b"unit,A,\xC2\xA02"),
        end: End::Refused(BadNumber(1, 3), "refused,1,5,1,3\n"),
    },
    Spoiled {
        name: "no-break spaces around a name",
        text: Changed(HALF_LOAD, "unit,A,2", b"unit,\xC2\xA0A\xC2\xA0,2"),
        end: End::Refused(UnknownName(2, 6), "refused,1,14,2,6\n"),
    },
    Spoiled {
        name: "a zero byte in a name",
        text: Changed(HALF_LOAD, "unit,A,2", b"unit,A\0,2"),
        end: End::Refused(BadName(1, 2), "refused,1,6,1,2\n"),
    },
    Spoiled {
        name: "a district of no unit",
        text: Changed(TWO_UNITS, "9,0,B", b"9,0,C"),
        end: End::Refused(UnknownName(4, 6), "refused,1,14,4,6\n"),
    },
    Spoiled {
        name: "no calls",
        text: Changed(HALF_LOAD, "atom,P,1,", b"atom,P,0,"),
        end: End::Refused(NoCalls, "refused,1,17\n"),
    },
    Spoiled {
        name: "more calls than a million",
        text: Changed(TWO_UNITS, "atom,P,1,", b"atom,P,1000000,"),
        end: End::Refused(RateSum(1_000_001), "refused,1,18,1000001\n"),
    },
    Spoiled {
        name: "more services than a million",
        text: Changed(TWO_UNITS, "unit,A,3\nunit,B,3", b"unit,A,1000000\nunit,B,1"),
        end: End::Refused(ServiceSum(1_000_001), "refused,1,19,1000001\n"),
    },
    Spoiled {
        name: "no trip back",
        text: Changed(TWO_UNITS, "travel,Q,P,300\n", b""),
        end: End::Refused(MissingTravel(2, 1), "refused,1,21,2,1\n"),
    },
    Spoiled {
        name: "a unit that is somewhere for 999 of 1000",
        text: Changed(TWO_UNITS, "at,B,Q,1000", b"at,B,Q,999"),
        end: End::Refused(LocationSum(2, 999), "refused,1,31,2,999\n"),
    },
    Spoiled {
        name: "no list for one atom of two",
        text: Changed(TWO_UNITS, "prefer,Q,B,A\n", b""),
        end: End::Refused(MissingList(2), "refused,1,40,2\n"),
    },
    Spoiled {
        name: "a list with a unit twice",
        text: Changed(TWO_UNITS, "prefer,P,A,B", b"prefer,P,A,A"),
        end: End::Refused(ListNotWhole(1), "refused,1,41,1\n"),
    },
    Spoiled {
        name: "a list where a rule makes the lists",
        text: Longer(TWO_UNITS, "rule,strict\n"),
        end: End::Refused(ListNotAsked(11), "refused,1,42,11\n"),
    },
    Spoiled {
        name: "a list twice",
        text: Longer(TWO_UNITS, "prefer,P,A,B\n"),
        end: End::Refused(ListTwice(13), "refused,1,43,13\n"),
    },
    Spoiled {
        name: "a list for an atom with a group",
        text: Longer(ONE_GROUP, "prefer,P,A,B\n"),
        end: End::Refused(ListTwice(14), "refused,1,43,14\n"),
    },
    Spoiled {
        name: "groups in a text of version 1",
        text: Changed(ONE_GROUP, "version,2\n", b""),
        end: End::Refused(UnknownKind(11), "refused,1,3,11\n"),
    },
    Spoiled {
        name: "calls that wait, and as many services",
        text: Plain(
            "line,infinite\nunit,A,1\natom,P,1,0,0,A\ntravel,P,P,300\nat,A,P,1000\nprefer,P,A\n",
        ),
        end: End::Refused(NotStable(1, 1), "refused,1,52,1,1\n"),
    },
];
