ghost use Rattle.std.specs.Prelude.{◌≡◌, ◌≤◌, map, IfOk, IfSome};
ghost use Rattle.hyper_model.specs.Plans.{IsBetween};
ghost use Rattle.command_words.specs.Command.{Gives};
ghost use Rattle.command_words.specs.Options.{AreWorkers};
ghost use Rattle.command_words.specs.Plain as spec;

use crate::name::MOST_FILE_NAME_BYTES;
use crate::options::{Options, Setting, options_of};
use crate::{Name255, WordsEnd};
use std::alloc::Global;
use text_lines::number_of;

/// One file, and what the options ask for together.
#[tactic(auto, unfolding(crate::specs::Plain::file_with_options))]
pub(crate) fn file_with_options(
    alloc: Global,
    names: &[&str],
    settings: &[Setting],
) -> Result<(Name255, Options), WordsEnd>
    ensures given { Gives (spec.file_with_options (map (λ name. name.now) names.now) settings.now) result }
    ensures workers { IfOk result (λ given. AreWorkers given.1.workers) }
{
    let [file] = names else {
        return Err(WordsEnd::NoCommand)
    };
    let Some(options) = options_of(settings) else {
        return Err(WordsEnd::NoCommand)
    };
    Ok((read_text(alloc, file, MOST_FILE_NAME_BYTES)?, options))
}

/// One file, and a number of so many digits at most, from `least` to `most`.
#[tactic(auto, unfolding(crate::specs::Plain::file_with_number))]
pub(crate) fn file_with_number(
    alloc: Global,
    names: &[&str],
    digits: usize,
    least: u32,
    most: u32,
) -> Result<(Name255, u32), WordsEnd>
    requires { digits ≤ 18 }
    ensures given { Gives (spec.file_with_number digits least most (map (λ name. name.now) names.now)) result }
    ensures in_range { IfOk result (λ given. IsBetween least most given.1) }
{
    let [file, number] = names else {
        return Err(WordsEnd::NoCommand)
    };
    let Some(number) = number_within(number, digits, least, most) else {
        return Err(WordsEnd::NoCommand)
    };
    Ok((read_text(alloc, file, MOST_FILE_NAME_BYTES)?, number))
}

/// The number that a text is, if it has so many digits at most and is in the range.
fn number_within(text: &str, digits: usize, least: u32, most: u32) -> Option<u32>
    requires { digits ≤ 18 }
    ensures number { result ≡ spec.number_within digits least most text.now }
    ensures in_range { IfSome result (IsBetween least most) }
{
    let number = number_of(text, digits)?;
    if number < u64::from(least) || u64::from(most) < number {
        return None;
    }
    Some(number as u32)
}

/// A text of 1 byte to so many, at most 255.
pub(crate) fn read_text(alloc: Global, text: &str, most: usize) -> Result<Name255, WordsEnd>
    requires { most ≤ 255 }
    ensures { Gives (spec.text_in most text.now) result }
{
    if text.is_empty() || text.len() > most {
        return Err(WordsEnd::NoCommand);
    }
    match Name255::of(alloc, text) {
        Ok(name) => Ok(name),
        Err(_) => Err(WordsEnd::NoMemory),
    }
}
