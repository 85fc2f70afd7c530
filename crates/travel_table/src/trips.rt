ghost use Rattle.std.specs.Prelude.{◌≡◌, ◌<◌, IfOk, OnOk, find, length, not};
ghost use Rattle.std.specs.List.{range_with_len};
ghost use Rattle.std.specs.Option.{option_and_then};
ghost use Rattle.plan_text.specs.Steps.{Checks, Refuses};
ghost use Rattle.atom_table.specs.Pairs.{is_known, pair_table_of, twice, with_given};
ghost use Rattle.travel_table.specs.Travel.{first_missing, trip_in, trips_in, trips_refusal};

use crate::TravelRefusal;
use atom_table::{AtomTable, PairValues};
use plan_text::Record;
use std::alloc::Global;

/// The travel times of the records, each ordered pair of atoms once at most.
pub(crate) fn read_trips(
    alloc: Global,
    names: &AtomTable,
    records: &[Record],
) -> Result<PairValues, TravelRefusal>
    ensures refusal { Checks TravelRefusal.NoMemory result (trips_refusal names.now records.now) }
    ensures trips { IfOk result (λ trips. trips ≡ pair_table_of (length names.now.atoms) (length names.now.atoms) (trips_in names.now records.now)) }
{
    let atoms = names.atoms().len();
    let mut trips = PairValues::of(alloc, atoms, atoms)?;
    for item in records {
        take_trip(names, item, &mut trips)?;
    }
    Ok(trips)
}

fn take_trip(names: &AtomTable, item: &Record, trips: &mut PairValues) -> Result<(), TravelRefusal>
    requires rows { trips.old.table.rows ≡ length names.now.atoms }
    requires cols { trips.old.table.cols ≡ length names.now.atoms }
    ensures refusal { Refuses result (option_and_then (twice TravelRefusal.DuplicateTravel (is_known trips.old)) (trip_in names.now item.now)) }
    ensures taken { OnOk result (trips.new ≡ with_given trips.old (trip_in names.now item.now)) }
{
    let Record::Travel {
        at,
        from,
        to,
        seconds,
    } = item
    else {
        return Ok(())
    };
    let Some(origin) = names.atom_of(from) else {
        return Ok(())
    };
    let Some(target) = names.atom_of(to) else {
        return Ok(())
    };
    if trips.put(usize::from(origin), usize::from(target), *seconds) {
        Ok(())
    } else {
        Err(TravelRefusal::DuplicateTravel(u64::from(*at)))
    }
}

/// Refuses a table of so many atoms in which a pair has no travel time.
pub(crate) fn check_gaps(trips: &PairValues, atoms: usize) -> Result<(), TravelRefusal>
    requires { 0 < atoms }
    ensures { Refuses result (first_missing atoms (find (λ pair. not (is_known trips.now pair)) (range_with_len 0 (length trips.now.known)))) }
{
    match trips.first_gap() {
        Some(pair) => Err(TravelRefusal::MissingTravel(
            (pair / atoms) as u64 + 1,
            (pair % atoms) as u64 + 1,
        )),
        None => Ok(()),
    }
}
