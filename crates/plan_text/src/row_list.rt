ghost use Rattle.std.specs.Prelude.{◌≡◌, ◌<◌, ◌↔◌, IsTrue, [], Some, length, map, IfOk, slice_index_or};
ghost use Rattle.csv.specs.Reading.{Ready, default_config, reader_config, reader_state, reader_trim, records, source_of};
ghost use Rattle.csv.specs.Records.{fields_of};
ghost use Rattle.csv.specs.declared.parser.State.TheVariants as st;
ghost use Rattle.csv.specs.declared.reader.Trim.TheVariants as trim;
ghost use Rattle.plan_text.specs.Rows.{clean_row, rows_of, without_marks};

use crate::cleaning::{count_fields, skip_marks, trimmed_at};
use csv::{ByteRecord, Reader, ReaderBuilder};
use std::alloc::{AllocError, Global};
use std::marker::Model;

/// One record of a text, as its fields without blanks at their ends, up to the last that is not empty.
#[derive(Drop)]
pub struct Row<'a> {
    source: &'a ByteRecord,
    count: usize,
}

impl<'a> Model for Row<'a> {
    ghost use Rattle.std.specs.Prelude.{◌≡◌, length};
    ghost use Rattle.csv.specs.Records.{fields_of};
    ghost use Rattle.plan_text.specs.Rows.{Fields, clean_row};

    ghost Value = { Fields };

    ghost view = { λ a. clean_row (fields_of a.source.now) };

    ghost invariant = { λ a. a.count ≡ length (clean_row (fields_of a.source.now)) };
}

impl<'a> Row<'a> {
    /// What counts of a record.
    pub fn of(source: &'a ByteRecord) -> Row<'a>
        ensures { result ≡ clean_row (fields_of source.now) }
    {
        Row {
            source,
            count: count_fields(source),
        }
    }

    /// How many fields there are.
    pub fn len(&self) -> usize
        ensures { result ≡ length self.now }
    {
        self.count
    }

    /// Whether there are none.
    pub fn is_empty(&self) -> bool
        ensures { IsTrue result ↔ (self.now ≡ []) }
    {
        self.count == 0
    }

    /// The bytes of the field at this place, counted from 0: none after the last field.
    pub fn field(&self, place: usize) -> &[u8]
        ensures { result.now ≡ slice_index_or self.now place [] }
    {
        if place < self.count {
            trimmed_at(self.source, place)
        } else {
            &[]
        }
    }
}

/// The rows of a text: every record of comma-separated values, in order, those without a field included.
#[derive(Drop)]
pub struct RowList {
    items: Vec<ByteRecord>,
}

impl Model for RowList {
    ghost use Rattle.std.specs.Prelude.{List, map};
    ghost use Rattle.csv.specs.Records.{fields_of};
    ghost use Rattle.plan_text.specs.Rows.{Fields, clean_row};

    ghost Value = { List Fields };

    ghost view = { λ a. map (λ source. clean_row (fields_of source)) a.items.items };
}

impl RowList {
    /// How many rows there are.
    pub fn len(&self) -> usize
        ensures { result ≡ length self.now }
    {
        self.items.len()
    }

    /// Whether there are none.
    pub fn is_empty(&self) -> bool
        ensures { IsTrue result ↔ (self.now ≡ []) }
    {
        self.items.is_empty()
    }

    /// The row at this place, counted from 0.
    pub fn row(&self, place: usize) -> Row<'_>
        requires { place < length self.now }
        ensures { result ≡ slice_index_or self.now place [] }
    {
        Row::of(&self.items[place])
    }

    /// How many fields the row at this place has.
    pub fn fields(&self, row: usize) -> usize
        requires { row < length self.now }
        ensures { result ≡ length (slice_index_or self.now row []) }
    {
        count_fields(&self.items[row])
    }

    /// The bytes of a field, with rows and the fields of a row counted from 0.
    pub fn field(&self, row: usize, place: usize) -> &[u8]
        requires row { row < length self.now }
        requires place { place < length (slice_index_or self.now row []) }
        ensures { result.now ≡ slice_index_or (slice_index_or self.now row []) place [] }
    {
        trimmed_at(&self.items[row], place)
    }
}

/// The rows of a text of comma-separated values.
///
/// Byte order marks at the start are dropped, as often as they stand there. Fields may be quoted, text lines may
/// end in either way, and rows may differ in length. An empty text line gives no row.
pub fn rows(alloc: Global, bytes: &[u8]) -> Result<RowList, AllocError>
    ensures { IfOk result (λ rows. rows ≡ rows_of bytes.now) }
{
    let items = all_records(alloc, bytes)?;
    Ok(RowList { items })
}

fn all_records(alloc: Global, bytes: &[u8]) -> Result<Vec<ByteRecord>, AllocError>
    ensures { IfOk result (λ found. map fields_of found.items ≡ records default_config (without_marks bytes.now)) }
{
    let reader = row_reader(alloc, bytes);
    let mut found = Vec::new(alloc);
    for read in reader.into_byte_records() {
        match read {
            Ok(source) => found.push(source)?,
            Err(_) => return Err(AllocError),
        }
    }
    Ok(found)
}

/// A reader of the records of a text, after all byte order marks at its start.
///
/// It fails only for lack of memory: the bytes are in memory, any length of a record is allowed, and no field has to be
/// text.
pub fn row_reader(alloc: Global, bytes: &[u8]) -> Reader<&[u8]>
    ensures trim { reader_trim result ≡ trim.None }
    ensures ready { Ready result }
    ensures config { reader_config result ≡ default_config }
    ensures state { reader_state result ≡ st.StartRecord }
    ensures source { source_of (λ s. Some s.now) result ≡ Some (without_marks bytes.now) }
{
    ReaderBuilder::new()
        .has_headers(false)
        .flexible(true)
        .from_reader(alloc, skip_marks(bytes))
}
