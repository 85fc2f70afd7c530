use atom_table::AtomRefusal;
use plan_text::{Record, TextRefusal, records, rows};
use preference_rules::ListRefusal;
use std::test::Fail;
use travel_table::TravelRefusal;
use unit_location::LocationRefusal;

fn expect_shareable<T: Send + Sync>(_value: &T) {}

const EVERY_KIND: &str =
    "version,2\n note , anything\n,,\nline,infinite\nrule,given\nperiod,60\n\"unit\",A,000000002,,\n\
                    atom,\"P\",1,0,0,A\ntravel,P,P,0\nat,A,P,1000\nprefer,P,A\ngroup,P,A\n";

#[test]
fn every_kind_of_record(rt: HostRuntime) -> Result<(), Fail> {
    let found = records(rt.alloc(), EVERY_KIND.as_bytes())?;
    assert_eq!(rt; found.len(), 10);
    expect_shareable(&found[9]);
    assert!(rt; matches!(found[1], Record::LineIs { at: 4, .. }));
    assert!(rt; matches!(found[9], Record::Group { at: 12, .. }));
    Ok(())
}

#[test]
fn rows_without_their_blanks_and_last_empty_fields(rt: HostRuntime) -> Result<(), Fail> {
    let list = rows(
        rt.alloc(),
        b"\xEF\xBB\xBF\xEF\xBB\xBFa, b\t,,c,,\r\n\r\n,".as_slice(),
    )?;
    assert_eq!(rt; list.len(), 2);
    assert_eq!(rt; list.fields(0), 4);
    assert!(rt; list.field(0, 1) == b"b".as_slice());
    assert!(rt; list.row(1).is_empty());
    Ok(())
}

#[test]
fn each_crate_words_its_refusals(rt: HostRuntime) -> Result<(), Fail> {
    let text = format!(in rt.alloc(); "{}", TextRefusal::BadNumber(3, 2))?;
    assert_eq!(rt; text.as_str(), "record 3 has no number in range in field 2");
    let atom = format!(in rt.alloc(); "{}", AtomRefusal::UnknownName(3, 4))?;
    assert_eq!(rt; atom.as_str(), "record 3 has an unknown name in field 4");
    let trip = format!(in rt.alloc(); "{}", TravelRefusal::MissingTravel(2, 1))?;
    assert_eq!(rt;
        trip.as_str(),
        "there is no travel time from atom 2 to atom 1"
    );
    let place = format!(in rt.alloc(); "{}", LocationRefusal::LocationSum(2, 999))?;
    assert_eq!(rt;
        place.as_str(),
        "the thousandths of unit 2 sum to 999, not 1000"
    );
    let list = format!(in rt.alloc(); "{}", ListRefusal::MissingList(2))?;
    assert_eq!(rt; list.as_str(), "no record is for the list of atom 2");
    Ok(())
}
