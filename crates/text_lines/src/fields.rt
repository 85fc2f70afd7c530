ghost use Rattle.std.specs.Prelude.{◌≡◌, ◌++◌, IfOk, decimal};
ghost use Rattle.text_lines.specs.Fields.{count_row, number_field, text_field};

use itoa::Buffer;
use std::alloc::AllocError;

/// Puts a whole number after the text.
///
/// If memory ends, a part of it stands there; so it is with all that is put after a text.
pub fn push_decimal(text: &mut Vec<u8>, number: u64) -> Result<(), AllocError>
    ensures { IfOk result (λ _. text.new.items ≡ text.old.items ++ decimal number) }
{
    let mut digits = Buffer::new();
    text.extend_from_slice(digits.format(number).as_bytes())
}

/// Puts a comma and a field after the text.
pub fn push_text_field(text: &mut Vec<u8>, field: &[u8]) -> Result<(), AllocError>
    ensures { IfOk result (λ _. text.new.items ≡ text.old.items ++ text_field field.now) }
{
    text.push(b',')?;
    text.extend_from_slice(field)
}

/// Puts a comma and a whole number after the text.
pub fn push_number_field(text: &mut Vec<u8>, number: u64) -> Result<(), AllocError>
    ensures { IfOk result (λ _. text.new.items ≡ text.old.items ++ number_field number) }
{
    text.push(b',')?;
    push_decimal(text, number)
}

/// Puts a row of a word and a number after the text, as in `units,2`.
pub fn push_count(text: &mut Vec<u8>, word: &[u8], number: u64) -> Result<(), AllocError>
    ensures { IfOk result (λ _. text.new.items ≡ text.old.items ++ count_row word.now number) }
{
    text.extend_from_slice(word)?;
    push_number_field(text, number)?;
    text.push(b'\n')?;
    Ok(())
}
