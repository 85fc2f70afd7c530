ghost use Rattle.std.specs.Prelude.{◌≡◌, IfOk, OnOk, length};
ghost use Rattle.std.specs.Option.{option_and_then};
ghost use Rattle.plan_text.specs.Steps.{Checks, Refuses};
ghost use Rattle.atom_table.specs.Pairs.{is_known, pair_table_of, twice, with_given};
ghost use Rattle.unit_location.specs.Located.{share_in, shares_in, shares_refusal};

use crate::LocationRefusal;
use atom_table::{AtomTable, PairValues};
use plan_text::Record;
use std::alloc::Global;

/// The thousandths of the records, each unit and atom once at most.
pub(crate) fn read_shares(
    alloc: Global,
    names: &AtomTable,
    records: &[Record],
) -> Result<PairValues, LocationRefusal>
    ensures refusal { Checks LocationRefusal.NoMemory result (shares_refusal names.now records.now) }
    ensures shares { IfOk result (λ shares. shares ≡ pair_table_of (length names.now.units) (length names.now.atoms) (shares_in names.now records.now)) }
{
    let mut shares = PairValues::of(alloc, names.units().len(), names.atoms().len())?;
    for item in records {
        take_share(names, item, &mut shares)?;
    }
    Ok(shares)
}

fn take_share(
    names: &AtomTable,
    item: &Record,
    shares: &mut PairValues,
) -> Result<(), LocationRefusal>
    requires rows { shares.old.table.rows ≡ length names.now.units }
    requires cols { shares.old.table.cols ≡ length names.now.atoms }
    ensures refusal { Refuses result (option_and_then (twice LocationRefusal.DuplicateLocation (is_known shares.old)) (share_in names.now item.now)) }
    ensures taken { OnOk result (shares.new ≡ with_given shares.old (share_in names.now item.now)) }
{
    let Record::Located {
        at,
        unit,
        atom,
        thousandths,
    } = item
    else {
        return Ok(())
    };
    let Some(row) = names.unit_of(unit) else {
        return Ok(())
    };
    let Some(col) = names.atom_of(atom) else {
        return Ok(())
    };
    if shares.put(usize::from(row), usize::from(col), *thousandths) {
        Ok(())
    } else {
        Err(LocationRefusal::DuplicateLocation(u64::from(*at)))
    }
}
