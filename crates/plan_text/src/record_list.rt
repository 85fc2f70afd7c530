ghost use Rattle.std.specs.Prelude.{◌≡◌, ℕ, List, [], ◌++◌, Err, OnOk, IfOk};
ghost use Rattle.std.specs.Option.{option_to_list};
ghost use Rattle.plan_text.specs.First.{IsFirstRefused};
ghost use Rattle.plan_text.specs.Form.{IsInForm};
ghost use Rattle.plan_text.specs.Reading.{fleet_records_of, records_after, records_of, records_with};
ghost use Rattle.plan_text.specs.Rows.{Fields, rows_of};
ghost use Rattle.plan_text.specs.Steps.{Gives};
ghost use Rattle.plan_text.specs.declared.kind.AddedKind.{AddedKind};
ghost use Rattle.plan_text.specs.declared.refusal.TextRefusal.{TextRefusal};

use crate::kind::is_version;
use crate::row_list::row_reader;
use crate::{AddedKind, MOST_TEXT_BYTES, Record, Row, TextRefusal, read_row};
use csv::ByteRecord;
use std::alloc::Global;

/// The records of a plan's text, in order, without notes and rows that have no field.
///
/// A text of more than [`MOST_TEXT_BYTES`] is refused before it is read. Else the refusal is that of the first row that
/// is refused, as [`read_row`] reads it; groups are a kind of record after a `version` record whose number is 2. No row
/// is read after one that is refused, and only one is in memory at a time.
pub fn records(alloc: Global, bytes: &[u8]) -> Result<Vec<Record>, TextRefusal>
    ensures records { Gives TextRefusal.NoMemory (λ found. found.items) result (records_of bytes.now) }
    ensures form { IfOk result (λ found. IsInForm found.items) }
{
    read_text(alloc, bytes, AddedKind::Group)
}

/// The records of a fleet's text, read like those of a plan's; crews are a kind of record after a `version` record whose
/// number is 3, and groups are none.
pub fn fleet_records(alloc: Global, bytes: &[u8]) -> Result<Vec<Record>, TextRefusal>
    ensures records { Gives TextRefusal.NoMemory (λ found. found.items) result (fleet_records_of bytes.now) }
    ensures form { IfOk result (λ found. IsInForm found.items) }
{
    read_text(alloc, bytes, AddedKind::Crews)
}

#[tactic(auto, unfolding(crate::specs::Reading::records_with))]
fn read_text(alloc: Global, bytes: &[u8], added: AddedKind) -> Result<Vec<Record>, TextRefusal>
    ensures records { Gives TextRefusal.NoMemory (λ found. found.items) result (records_with added bytes.now) }
    ensures form { IfOk result (λ found. IsInForm found.items) }
{
    if bytes.len() > MOST_TEXT_BYTES {
        return Err(TextRefusal::TooLong(bytes.len() as u64));
    }
    read_rows(alloc, bytes, added)
}

fn read_rows(alloc: Global, bytes: &[u8], added: AddedKind) -> Result<Vec<Record>, TextRefusal>
    ensures records { Gives TextRefusal.NoMemory (λ found. found.items) result (records_after added [] (rows_of bytes.now)) }
    ensures form { IfOk result (λ found. IsInForm found.items) }
{
    let mut reader = row_reader(alloc, bytes);
    let mut source = ByteRecord::new(alloc);
    let mut found = Vec::new(alloc);
    let mut is_added = false;
    let mut number = 0;
    'rows: loop {
        let Ok(more) = reader.read_byte_record(&mut source) else {
            return Err(TextRefusal::NoMemory)
        };
        if !more {
            return Ok(found);
        }
        number += 1;
        let row = Row::of(&source);
        let read = read_row(alloc, &row, number, is_added.then_some(added))?;
        keep(&mut found, read)?;
        is_added |= is_version(&row, added.version());
    }
}

fn keep(found: &mut Vec<Record>, read: Option<Record>) -> Result<(), TextRefusal>
    ensures kept { OnOk result (found.new.items ≡ found.old.items ++ option_to_list read) }
    ensures no_memory { (e : TextRefusal) → result ≡ Err e → e ≡ TextRefusal.NoMemory }
{
    if let Some(record) = read {
        found.push(record).map_err(|_| TextRefusal::NoMemory)?;
    }
    Ok(())
}

/// The refusal that rows give is that of a row before which none is refused.
pub fn law_first_refusal()
    ensures { (added : AddedKind) (rows : List Fields) (e : TextRefusal) → records_after added [] rows ≡ Err e
        → (place : ℕ) × IsFirstRefused added rows place e }
{}
