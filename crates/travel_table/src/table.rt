ghost use Rattle.std.specs.Prelude.{◌≡◌};
ghost use Rattle.plan_text.specs.Steps.{Gives};
ghost use Rattle.travel_table.specs.Travel.{travel_of};

use crate::TravelRefusal;
use crate::trips::{check_gaps, read_trips};
use atom_table::AtomTable;
use hyper_model::Table;
use plan_text::Record;
use std::alloc::Global;
use std::marker::Model;

/// The seconds of travel for each ordered pair of atoms: a row for each atom from which, a column for each atom to which.
#[derive(Drop)]
pub struct TravelTable {
    table: Table,
}

impl Model for TravelTable {
    ghost use Rattle.hyper_model.specs.Grid.{Grid};

    ghost Value = { Grid };

    ghost view = { λ a. a.table };
}

impl TravelTable {
    /// The travel times that the records give between the atoms of the table.
    ///
    /// First each record has to be for a pair that no earlier one has: the first record that is not is refused. Then every
    /// ordered pair needs a record: the first that has none is refused, by the atom from which, then by the atom to which.
    pub fn of(
        alloc: Global,
        names: &AtomTable,
        records: &[Record],
    ) -> Result<TravelTable, TravelRefusal>
        ensures { Gives TravelRefusal.NoMemory (λ table. table) result (travel_of names.now records.now) }
    {
        let trips = read_trips(alloc, names, records)?;
        check_gaps(&trips, names.atoms().len())?;
        Ok(TravelTable {
            table: trips.into_table(),
        })
    }

    /// Only the table.
    pub fn into_table(self) -> Table
        ensures { result ≡ self }
    {
        self.table
    }
}
