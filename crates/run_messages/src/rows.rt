use crate::at::At;
use crate::lines::{Lines, without_marks};
use crate::near::distance;
use crate::unsaid::Unsaid;
use csv::ByteRecord;
use plan_text::{MOST_RECORDS, Row, is_skipped, row_reader};
use std::alloc::{AllocError, Global};

/// A record of a text, and where it stands.
#[derive(Drop)]
pub(crate) struct TextRow {
    at: At,
    source: ByteRecord,
}

impl TextRow {
    /// Where it stands.
    pub fn at(&self) -> At {
        self.at
    }

    /// Its fields.
    pub fn row(&self) -> Row<'_> {
        Row::of(&self.source)
    }

    /// Whether it is of this kind.
    pub fn is_of(&self, kind: &[u8]) -> bool {
        self.row().field(0) == kind
    }

    /// Whether it is of this kind, and this is its first name.
    pub fn is_named(&self, kind: &[u8], name: &[u8]) -> bool {
        let row = self.row();
        row.field(0) == kind && row.field(1) == name
    }

    /// Whether it is of this kind, and these are its first two names.
    pub fn is_pair(&self, kind: &[u8], first: &[u8], second: &[u8]) -> bool {
        let row = self.row();
        row.field(0) == kind && row.field(1) == first && row.field(2) == second
    }
}

/// The records of a text that are not passed over, up to the first that is one too many.
#[derive(Drop)]
pub(crate) struct Rows {
    items: Vec<TextRow>,
}

impl Rows {
    /// Those of this text, counted as the reader of plans counts them.
    pub fn of(alloc: Global, text: &[u8]) -> Result<Rows, AllocError> {
        let mut lines = Lines::of(without_marks(text));
        let mut reader = row_reader(alloc, text);
        let mut items = Vec::new(alloc);
        for number in 1..=MOST_RECORDS + 1 {
            let mut source = ByteRecord::new(alloc);
            let Ok(true) = reader.read_byte_record(&mut source) else {
                break
            };
            let line = lines.go_to(source.position().map_or(0, |position| position.byte()));
            if number > MOST_RECORDS || !is_skipped(&Row::of(&source)) {
                let at = At { number, line };
                items.push(TextRow { at, source })?;
            }
        }
        Ok(Rows { items })
    }

    /// All of them, in order.
    pub fn items(&self) -> &[TextRow] {
        &self.items
    }

    /// The record of this number.
    pub fn record(&self, number: u64) -> Result<&TextRow, Unsaid> {
        self.items
            .iter()
            .find(|item| u64::from(item.at.number) == number)
            .ok_or(Unsaid::Unknown)
    }

    /// The first record of this kind.
    pub fn first_of(&self, kind: &[u8]) -> Result<&TextRow, Unsaid> {
        self.items
            .iter()
            .find(|item| item.is_of(kind))
            .ok_or(Unsaid::Unknown)
    }

    /// The first record of this kind with this first name.
    pub fn first_named(&self, kind: &[u8], name: &[u8]) -> Result<&TextRow, Unsaid> {
        self.items
            .iter()
            .find(|item| item.is_named(kind, name))
            .ok_or(Unsaid::Unknown)
    }

    /// The first record of this kind with these first two names.
    pub fn first_pair(&self, kind: &[u8], first: &[u8], second: &[u8]) -> Result<&TextRow, Unsaid> {
        self.items
            .iter()
            .find(|item| item.is_pair(kind, first, second))
            .ok_or(Unsaid::Unknown)
    }

    /// The record of this kind with this number among those of its kind, counted from 1.
    pub fn nth(&self, kind: &[u8], number: u64) -> Result<&TextRow, Unsaid> {
        let mut left = number;
        for item in &self.items {
            if item.is_of(kind) {
                left = left.saturating_sub(1);
                if left == 0 {
                    return Ok(item);
                }
            }
        }
        Err(Unsaid::Unknown)
    }

    /// How many records are of this kind.
    pub fn count_of(&self, kind: &[u8]) -> usize {
        self.items.iter().filter(|item| item.is_of(kind)).count()
    }

    /// How many records of this kind have this first name.
    pub fn count_named(&self, kind: &[u8], name: &[u8]) -> usize {
        self.items
            .iter()
            .filter(|item| item.is_named(kind, name))
            .count()
    }

    /// The record of this kind whose name is nearest to this one, if any is near.
    pub fn nearest(&self, kind: &[u8], name: &[u8]) -> Option<&TextRow> {
        let mut found = None;
        let mut least = usize::MAX;
        for item in &self.items {
            if item.is_of(kind)
                && let Some(apart) = distance(name, item.row().field(1))
                && apart < least
            {
                least = apart;
                found = Some(item);
            }
        }
        found
    }
}
