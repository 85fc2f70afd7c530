ghost use Rattle.std.specs.Prelude.{◌≡◌, ◌<◌, true, false, Err, IfOk};
ghost use Rattle.std.specs.Str.{is_utf8};
ghost use Rattle.plan_text.specs.Fields as spec;
ghost use Rattle.plan_text.specs.Fields.{field, number_in};
ghost use Rattle.plan_text.specs.Steps.{Gives};
ghost use Rattle.plan_text.specs.declared.refusal.TextRefusal.{TextRefusal};

use crate::{Row, TextRefusal};
use hyper_model::{Line, Name, NameEnd, Rule};
use std::alloc::Global;
use text_lines::number_of;

/// The most digits that a number has.
const MOST_DIGITS: usize = 9;

/// The text of a field of record `number`, with the fields counted from 0: no text after the last field.
///
/// Refused if the field is no UTF-8.
pub fn text_at<'a>(row: &'a Row<'_>, number: u32, place: usize) -> Result<&'a str, TextRefusal>
    ensures text { IfOk result (λ text. text.now ≡ field row.now place) }
    ensures utf8 { IfOk result (λ _. is_utf8 (field row.now place) ≡ true) }
    ensures not_utf8 { (e : TextRefusal) → result ≡ Err e → is_utf8 (field row.now place) ≡ false }
    ensures refusal { (e : TextRefusal) → result ≡ Err e → e ≡ TextRefusal.NotUtf8 number }
{
    match str::from_utf8(row.field(place)) {
        Ok(text) => Ok(text),
        Err(_) => Err(TextRefusal::NotUtf8(u64::from(number))),
    }
}

/// The number that a field of record `number` says: one to nine decimal digits, leading zeros allowed, with a value from
/// `least` to `most`.
pub fn number_at(
    row: &Row<'_>,
    number: u32,
    place: usize,
    least: u32,
    most: u32,
) -> Result<u32, TextRefusal>
    requires { place < usize.MAX }
    ensures { result ≡ spec.number_at least most number row.now place }
{
    let text = text_at(row, number, place)?;
    match number_within(text, least, most) {
        Some(value) => Ok(value),
        None => Err(TextRefusal::BadNumber(u64::from(number), place as u64 + 1)),
    }
}

/// The name that a field of record `number` says.
pub fn name_at(alloc: Global, row: &Row<'_>, number: u32, place: usize) -> Result<Name, TextRefusal>
    requires { place < usize.MAX }
    ensures { Gives TextRefusal.NoMemory (λ name. name) result (spec.name_at number row.now place) }
{
    let text = text_at(row, number, place)?;
    match Name::of(alloc, text.as_bytes()) {
        Ok(name) => Ok(name),
        Err(NameEnd::BadName) => Err(TextRefusal::BadName(u64::from(number), place as u64 + 1)),
        Err(NameEnd::NoMemory) => Err(TextRefusal::NoMemory),
    }
}

/// The line that a field of record `number` names: `zero` or `infinite`.
pub fn line_at(row: &Row<'_>, number: u32, place: usize) -> Result<Line, TextRefusal>
    requires { place < usize.MAX }
    ensures { result ≡ spec.line_at number row.now place }
{
    match text_at(row, number, place)? {
        "zero" => Ok(Line::Zero),
        "infinite" => Ok(Line::Infinite),
        _ => Err(TextRefusal::BadName(u64::from(number), place as u64 + 1)),
    }
}

/// The rule that a field of record `number` names: `given`, `strict` or `modified`.
pub fn rule_at(row: &Row<'_>, number: u32, place: usize) -> Result<Rule, TextRefusal>
    requires { place < usize.MAX }
    ensures { result ≡ spec.rule_at number row.now place }
{
    match text_at(row, number, place)? {
        "given" => Ok(Rule::Given),
        "strict" => Ok(Rule::Strict),
        "modified" => Ok(Rule::Modified),
        _ => Err(TextRefusal::BadName(u64::from(number), place as u64 + 1)),
    }
}

fn number_within(text: &str, least: u32, most: u32) -> Option<u32>
    ensures { result ≡ number_in least most text.now }
{
    match number_of(text, MOST_DIGITS) {
        Some(number) => {
            let value = number as u32;
            (least <= value && value <= most).then_some(value)
        }
        None => None,
    }
}
