ghost use Rattle.std.specs.Prelude.{◌≡◌, ◌≤◌, IsTrue};
ghost use Rattle.plan_text.specs.Kinds as spec;
ghost use Rattle.plan_text.specs.Kinds.{has_field_count, is_passed_over, says_version, shape_of};

use crate::{Row, number_at};
use hyper_model::MOST_UNITS;

/// The most fields that a record has: a keyword, an atom and as many units as there can be.
pub(crate) const MOST_FIELDS: usize = MOST_UNITS + 2;

/// A kind of record that a text can have beside those of version 1: after a record for the version in which it came.
#[derive(Clone, Copy, Debug, PartialEq, Eq)]
pub enum AddedKind {
    /// A group of a preference list, in plans of version 2.
    Group,
    /// The crews of a station, in fleets, which are of version 3.
    Crews,
}

impl AddedKind {
    /// The version in which the kind came.
    pub fn version(self) -> u32
        ensures { result ≡ spec.added_version self }
    {
        match self {
            AddedKind::Group => 2,
            AddedKind::Crews => 3,
        }
    }
}

/// What a record is about, as its first field says.
#[derive(Clone, Copy, Debug, PartialEq, Eq)]
pub(crate) enum Kind {
    Version,
    Line,
    Rule,
    Period,
    Unit,
    Atom,
    Travel,
    Located,
    Prefer,
    Group,
    Crews,
}

/// The kind that a first field names: one of version 1, or the one that is added.
pub(crate) fn kind_of(keyword: &[u8], added: Option<AddedKind>) -> Option<Kind>
    ensures { result ≡ spec.kind_of added keyword.now }
{
    if keyword == b"version".as_slice() {
        Some(Kind::Version)
    } else if keyword == b"line".as_slice() {
        Some(Kind::Line)
    } else if keyword == b"rule".as_slice() {
        Some(Kind::Rule)
    } else if keyword == b"period".as_slice() {
        Some(Kind::Period)
    } else if keyword == b"unit".as_slice() {
        Some(Kind::Unit)
    } else if keyword == b"atom".as_slice() {
        Some(Kind::Atom)
    } else if keyword == b"travel".as_slice() {
        Some(Kind::Travel)
    } else if keyword == b"at".as_slice() {
        Some(Kind::Located)
    } else if keyword == b"prefer".as_slice() {
        Some(Kind::Prefer)
    } else {
        added_kind_of(keyword, added)
    }
}

fn added_kind_of(keyword: &[u8], added: Option<AddedKind>) -> Option<Kind>
    ensures { result ≡ spec.added_kind_of added keyword.now }
{
    match added {
        Some(AddedKind::Group) if keyword == b"group".as_slice() => Some(Kind::Group),
        Some(AddedKind::Crews) if keyword == b"crews".as_slice() => Some(Kind::Crews),
        _ => None,
    }
}

/// The fewest and the most fields of a record of this kind, the kind itself included.
fn field_counts(kind: Kind) -> (usize, usize)
    ensures fewest { result.0 ≡ (shape_of kind).fewest }
    ensures most { result.1 ≡ (shape_of kind).most }
    ensures few { result.1 ≤ MOST_FIELDS }
{
    match kind {
        Kind::Version | Kind::Line | Kind::Rule | Kind::Period => (2, 2),
        Kind::Unit | Kind::Crews => (3, 3),
        Kind::Atom => (6, 6),
        Kind::Travel | Kind::Located => (4, 4),
        Kind::Prefer | Kind::Group => (3, MOST_FIELDS),
    }
}

/// Whether a record of this kind can have this many fields.
pub(crate) fn may_have(kind: Kind, count: usize) -> bool
    ensures count { result ≡ has_field_count kind count }
    ensures few { IsTrue result → count ≤ MOST_FIELDS }
{
    let (fewest, most) = field_counts(kind);
    fewest <= count && count <= most
}

/// Whether a row gives no record: it has no field, or is a note.
pub fn is_skipped(row: &Row<'_>) -> bool
    ensures { result ≡ is_passed_over row.now }
{
    row.is_empty() || row.field(0) == b"note".as_slice()
}

/// Whether a row says that the text is of this version.
pub(crate) fn is_version(row: &Row<'_>, version: u32) -> bool
    ensures { result ≡ says_version version row.now }
{
    row.field(0) == b"version".as_slice() && number_at(row, 0, 1, version, version).is_ok()
}
