ghost use Rattle.std.specs.Prelude.{◌≡◌, [], length, map, take, slice_index_or};
ghost use Rattle.csv.specs.Records.{fields_of};
ghost use Rattle.plan_text.specs.Rows.{clean_row, is_blank, drop_while, drop_last_while, without_blanks, without_marks};

use csv::ByteRecord;

/// The text after all byte order marks that it begins with.
pub(crate) fn skip_marks(bytes: &[u8]) -> &[u8]
    ensures { result.now ≡ without_marks bytes.now }
{
    let mut rest = bytes;
    while let [0xEF, 0xBB, 0xBF, after @ ..] = rest {
        rest = after;
    }
    rest
}

fn is_space(byte: u8) -> bool
    ensures { result ≡ is_blank byte }
{
    byte == b' ' || byte == b'\t'
}

fn trim_front(field: &[u8]) -> &[u8]
    ensures { result.now ≡ drop_while is_blank field.now }
{
    let mut rest = field;
    while let [first, after @ ..] = rest {
        if !is_space(*first) {
            return rest;
        }
        rest = after;
    }
    rest
}

fn trim_back(field: &[u8]) -> &[u8]
    ensures { result.now ≡ drop_last_while is_blank field.now }
{
    let mut rest = field;
    while let [before @ .., last] = rest {
        if !is_space(*last) {
            return rest;
        }
        rest = before;
    }
    rest
}

/// The field at this place without the blanks at its ends, empty if there is none.
pub(crate) fn trimmed_at(source: &ByteRecord, place: usize) -> &[u8]
    ensures { result.now ≡ slice_index_or (map without_blanks (fields_of source.now)) place [] }
{
    match source.get(place) {
        Some(field) => trim_back(trim_front(field)),
        None => &[],
    }
}

/// How many fields there are up to the last that has a byte other than blanks.
pub(crate) fn count_fields(source: &ByteRecord) -> usize
    ensures count { result ≡ length (clean_row (fields_of source.now)) }
    ensures front { clean_row (fields_of source.now) ≡ take result (map without_blanks (fields_of source.now)) }
{
    let mut count = source.len();
    while count > 0 && trimmed_at(source, count - 1).is_empty() {
        count -= 1;
    }
    count
}
