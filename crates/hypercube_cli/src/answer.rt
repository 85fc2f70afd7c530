ghost use Rattle.std.specs.Prelude.{◌≡◌, IfOk};
ghost use Rattle.hypercube_cli.specs.Endings.{IsOwn, done_ending, wide_ending, wide_fleet_ending};
ghost use Rattle.hypercube_cli.specs.Lines.{wide_line};
ghost use Rattle.text_lines.specs.Fractions.{IsScale};

use crate::Outcome;
use fleet_measures::FleetMeasure;
use fleet_text::fleet_scale;
use hyper_model::{Measure, scale};
use std::alloc::{AllocError, Global};
use std::marker::Model;
use text_lines::{push_ends, push_number_field, push_text_field};

/// How a command ends with a text of its own: Done or TooWide, and the text that is to be written.
#[derive(Drop)]
pub(crate) struct Answer {
    outcome: Outcome,
    text: Vec<u8>,
}

impl Model for Answer {
    ghost use Rattle.hypercube_cli.specs.Endings.{Ending, IsOwn};

    ghost Value = { Ending };

    ghost view = { λ a. record { outcome = a.outcome; text = a.text.items } };

    ghost invariant = { λ a. IsOwn a.outcome };
}

impl Answer {
    /// The text of the command.
    pub fn of_text(text: Vec<u8>) -> Answer
        ensures { result ≡ done_ending text.items }
    {
        Answer {
            outcome: Outcome::Done,
            text,
        }
    }

    /// The line that says of which measure, by the fields of its own line, the ends lie too far apart in the plan at this
    /// place.
    pub fn of_wide(
        alloc: Global,
        label: &[u8],
        place: u32,
        measure: Measure,
        low: u64,
        high: u64,
    ) -> Result<Answer, AllocError>
        ensures { IfOk result (λ answer. answer ≡ wide_ending label.now place measure low high) }
    {
        Ok(Answer {
            outcome: Outcome::TooWide(place, measure, low, high),
            text: wide_text(alloc, label, place, scale(measure), low, high)?,
        })
    }

    /// The same of a measure of the fleet.
    pub fn of_wide_fleet(
        alloc: Global,
        label: &[u8],
        measure: FleetMeasure,
        low: u64,
        high: u64,
    ) -> Result<Answer, AllocError>
        ensures { IfOk result (λ answer. answer ≡ wide_fleet_ending label.now measure low high) }
    {
        Ok(Answer {
            outcome: Outcome::FleetTooWide(measure, low, high),
            text: wide_text(alloc, label, 1, fleet_scale(measure), low, high)?,
        })
    }

    /// The outcome.
    pub fn outcome(&self) -> Outcome
        ensures outcome { result ≡ self.now.outcome }
        ensures own { IsOwn result }
    {
        self.outcome
    }

    /// The text that is to be written.
    pub fn text(&self) -> &[u8]
        ensures { result.now ≡ self.now.text }
    {
        &self.text
    }
}

/// The line of a measure whose ends lie too far apart, in digits of this scale.
fn wide_text(
    alloc: Global,
    label: &[u8],
    place: u32,
    scale: u32,
    low: u64,
    high: u64,
) -> Result<Vec<u8>, AllocError>
    requires { IsScale scale }
    ensures { IfOk result (λ text. text.items ≡ wide_line label.now place scale low high) }
{
    let mut text = Vec::from_slice(alloc, b"toowide")?;
    push_number_field(&mut text, u64::from(place))?;
    push_text_field(&mut text, label)?;
    text.push(b',')?;
    push_ends(&mut text, low, high, scale)?;
    text.push(b'\n')?;
    Ok(text)
}
