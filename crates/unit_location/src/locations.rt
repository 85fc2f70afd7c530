ghost use Rattle.std.specs.Prelude.{◌≡◌};
ghost use Rattle.hyper_model.specs.Acceptance.{AreWhole};
ghost use Rattle.plan_text.specs.Steps.{Gives};
ghost use Rattle.unit_location.specs.Located.{located_of};

use crate::LocationRefusal;
use crate::share_sums::check_sums;
use crate::shares::read_shares;
use atom_table::AtomTable;
use hyper_model::Table;
use plan_text::Record;
use std::alloc::Global;
use std::marker::Model;

/// For each unit and atom the thousandths of its free time that the unit spends there, 1000 for each unit in all.
#[derive(Drop)]
pub struct Locations {
    table: Table,
}

impl Model for Locations {
    ghost use Rattle.hyper_model.specs.Acceptance.{AreWhole};
    ghost use Rattle.hyper_model.specs.Grid.{Grid};

    ghost Value = { Grid };

    ghost view = { λ a. a.table };

    ghost invariant = { λ a. AreWhole a.table };
}

impl Locations {
    /// The thousandths that the records give for the units and atoms of the table, 0 if there is no record.
    ///
    /// First each record has to be for a unit and an atom that no earlier one has: the first record that is not is
    /// refused. Then the thousandths of each unit have to sum to 1000: the first unit of which they do not is refused.
    pub fn of(
        alloc: Global,
        names: &AtomTable,
        records: &[Record],
    ) -> Result<Locations, LocationRefusal>
        ensures { Gives LocationRefusal.NoMemory (λ locations. locations) result (located_of names.now records.now) }
    {
        let shares = read_shares(alloc, names, records)?;
        let table = shares.into_table();
        check_sums(&table)?;
        Ok(Locations { table })
    }

    /// The table: a row for each unit, a column for each atom.
    pub fn table(&self) -> &Table
        ensures table { result.now ≡ self.now }
        ensures whole { AreWhole result.now }
    {
        &self.table
    }

    /// Only the table.
    pub fn into_table(self) -> Table
        ensures table { result ≡ self }
        ensures whole { AreWhole result }
    {
        self.table
    }
}
