ghost use Rattle.std.specs.Prelude.{◌≡◌, ◌≤◌, IfOk, IfSome, map};
ghost use Rattle.hyper_model.specs.declared.TheConstants.{MOST_TRAVEL};
ghost use Rattle.command_words.specs.Command.{Gives};
ghost use Rattle.command_words.specs.Limits.{limit_in, limits_in, limits_in_fields};

use crate::{LimitList, WordsEnd};
use hyper_model::{Limits, MOST_LIMITS, MOST_TRAVEL};
use std::alloc::{AllocError, Global};
use text_lines::number_of;

/// The most digits of a limit.
const MOST_LIMIT_DIGITS: usize = 6;

/// The limits that a text says: one number of seconds, or up to 16 with commas between, each greater than the one before. A
/// number has one to six digits and is at most 100,000.
pub(crate) fn read_limits(alloc: Global, text: &str) -> Result<LimitList, WordsEnd>
    ensures { Gives (limits_in text.now) result }
{
    match limits_of(alloc, text) {
        Ok(Some(limits)) => Ok(LimitList::of(limits)),
        Ok(None) => Err(WordsEnd::NoCommand),
        Err(_) => Err(WordsEnd::NoMemory),
    }
}

#[tactic(auto, unfolding(crate::specs::Limits::limits_in))]
fn limits_of(alloc: Global, text: &str) -> Result<Option<Limits>, AllocError>
    ensures { IfOk result (λ limits. limits ≡ limits_in text.now) }
{
    let fields: Vec<&str> = text.split(',').collect(alloc)?;
    limits_in_fields(alloc, &fields)
}

fn limits_in_fields(alloc: Global, fields: &[&str]) -> Result<Option<Limits>, AllocError>
    ensures { IfOk result (λ limits. limits ≡ limits_in_fields (map (λ field. field.now) fields.now)) }
{
    let mut limits = Limits::of(alloc)?;
    if MOST_LIMITS < fields.len() {
        return Ok(None);
    }
    let mut least = 0;
    for field in fields {
        let Some(limit) = limit_of(field, least) else {
            return Ok(None)
        };
        limits.push(limit);
        least = limit + 1;
    }
    Ok(Some(limits))
}

fn limit_of(text: &str, least: u32) -> Option<u32>
    ensures limit { result ≡ limit_in least text.now }
    ensures most { IfSome result (λ limit. limit ≤ MOST_TRAVEL) }
{
    let limit = number_of(text, MOST_LIMIT_DIGITS)?;
    if limit < u64::from(least) || u64::from(MOST_TRAVEL) < limit {
        return None;
    }
    Some(limit as u32)
}
