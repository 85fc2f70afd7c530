ghost use Rattle.std.specs.Prelude.{◌≡◌, ◌<◌};
ghost use Rattle.plan_text.specs.Steps.{Refuses};
ghost use Rattle.unit_location.specs.Located.{row_sum, sums_refusal};

use crate::LocationRefusal;
use hyper_model::Table;

/// The thousandths of all a unit's free time.
const WHOLE: u64 = 1000;

/// Refuses a table with a row that does not sum to 1000.
pub(crate) fn check_sums(table: &Table) -> Result<(), LocationRefusal>
    ensures { Refuses result (sums_refusal table.now) }
{
    for unit in 0..table.rows() {
        let sum = sum_of_row(table, unit);
        if sum != WHOLE {
            return Err(LocationRefusal::LocationSum(unit as u64 + 1, sum));
        }
    }
    Ok(())
}

fn sum_of_row(table: &Table, row: usize) -> u64
    requires { row < table.now.rows }
    ensures { result ≡ row_sum table.now row }
{
    let mut total = 0;
    for col in 0..table.cols() {
        total += u64::from(table.get(row, col));
    }
    total
}
