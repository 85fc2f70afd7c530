use crate::forms::Quantity;

/// What helps if these bytes are no number of this kind.
pub(crate) fn number_advice(bytes: &[u8], quantity: &Quantity) -> &'static str {
    if bytes.is_empty() {
        "Write a number there."
    } else if bytes.contains(&b';') {
        "Semicolons do not separate fields: save the file with commas."
    } else if bytes.contains(&b'\t') {
        "Tabs do not separate fields: save the file with commas."
    } else if are_digits(bytes) || is_decimal(bytes) {
        quantity.advice
    } else if has_separators(bytes) {
        "Write digits without a space or a mark between thousands."
    } else {
        "Write digits only, without a unit of measurement."
    }
}

fn are_digits(bytes: &[u8]) -> bool {
    bytes.iter().all(|byte| byte.is_ascii_digit())
}

/// Whether bytes look like a number with a sign, a fraction or a power of ten.
fn is_decimal(bytes: &[u8]) -> bool {
    bytes.first().is_some_and(|byte| may_begin(*byte))
        && bytes.last().is_some_and(|byte| byte.is_ascii_digit())
        && bytes.iter().all(|byte| is_of_decimal(*byte))
}

fn may_begin(byte: u8) -> bool {
    byte.is_ascii_digit() || matches!(byte, b'-' | b'+' | b'.' | b',')
}

fn is_of_decimal(byte: u8) -> bool {
    may_begin(byte) || matches!(byte, b'e' | b'E')
}

/// Whether bytes are digits with marks between them that some countries write.
fn has_separators(bytes: &[u8]) -> bool {
    bytes.first().is_some_and(|byte| byte.is_ascii_digit())
        && bytes.last().is_some_and(|byte| byte.is_ascii_digit())
        && !bytes.iter().any(|byte| byte.is_ascii_alphabetic())
}
