ghost use Rattle.std.specs.Prelude.{◌≡◌, ◌+◌, ◌/◌, ◌%◌, ◌<◌, ◌++◌, IfOk};
ghost use Rattle.text_lines.specs.Fractions.{IsScale, ends_bytes, last_digits, number_bytes};

use crate::push_decimal;
use std::alloc::{AllocError, Global};

/// A number of thousandths or millionths as a decimal fraction: 1500 thousandths are `1.500`.
pub fn number_text(alloc: Global, value: u64, scale: u32) -> Result<Vec<u8>, AllocError>
    requires { IsScale scale }
    ensures { IfOk result (λ text. text.items ≡ number_bytes value scale) }
{
    let mut text = Vec::new(alloc);
    push_number(&mut text, value, scale)?;
    Ok(text)
}

/// Puts two ends after the text, with a comma between them, as in `0.333333,0.333334`. They are in
/// thousandths (`scale` 1000) or in millionths (1,000,000).
pub fn push_ends(text: &mut Vec<u8>, lo: u64, hi: u64, scale: u32) -> Result<(), AllocError>
    requires { IsScale scale }
    ensures { IfOk result (λ _. text.new.items ≡ text.old.items ++ ends_bytes lo hi scale) }
{
    push_number(text, lo, scale)?;
    text.push(b',')?;
    push_number(text, hi, scale)
}

/// Puts a number of thousandths (`scale` 1000) or of millionths (1,000,000) after the text, as a
/// decimal fraction of three or six places.
pub fn push_number(text: &mut Vec<u8>, value: u64, scale: u32) -> Result<(), AllocError>
    requires { IsScale scale }
    ensures { IfOk result (λ _. text.new.items ≡ text.old.items ++ number_bytes value scale) }
{
    push_decimal(text, value / u64::from(scale))?;
    text.push(b'.')?;
    if scale == 1000 {
        push_three_digits(text, value)
    } else {
        push_six_digits(text, value)
    }
}

fn push_three_digits(text: &mut Vec<u8>, value: u64) -> Result<(), AllocError>
    ensures { IfOk result (λ _. text.new.items ≡ text.old.items ++ last_digits 3 value) }
{
    text.extend_from_slice(&[digit(value, 100), digit(value, 10), digit(value, 1)])
}

fn push_six_digits(text: &mut Vec<u8>, value: u64) -> Result<(), AllocError>
    ensures { IfOk result (λ _. text.new.items ≡ text.old.items ++ last_digits 6 value) }
{
    text.extend_from_slice(&[
        digit(value, 100_000),
        digit(value, 10_000),
        digit(value, 1000),
        digit(value, 100),
        digit(value, 10),
        digit(value, 1),
    ])
}

/// The digit of this power of ten.
fn digit(value: u64, power: u64) -> u8
    requires { 0 < power }
    ensures { result ≡ 48 + value / power % 10 }
{
    b'0' + (value / power % 10) as u8
}
