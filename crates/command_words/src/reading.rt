ghost use Rattle.std.specs.Prelude.{◌≡◌, true, map, Some, None, IfOk, IfSome};
ghost use Rattle.std.specs.Result.{IsErrOf};
ghost use Rattle.std.specs.String.{string_bytes};
ghost use Rattle.hyper_model.specs.Measures.{is_of_region};
ghost use Rattle.command_words.specs.Command as spec;
ghost use Rattle.command_words.specs.Command.{command, compare_of, finite_of, fleet_of, Gives, make_of, NumbersInRange, pairs_of, reach_of, replay_of, solve_of, sweep_of, with_plain};

use crate::argument_lists::read_arguments;
use crate::limits::read_limits;
use crate::name::MOST_FILE_NAME_BYTES;
use crate::options::{Setting, are_of_report};
use crate::plain::{file_with_number, file_with_options, read_text};
use crate::{Command, WordsEnd};
use hyper_model::{MOST_NAME_BYTES, Measure};
use std::alloc::Global;
use text_lines::number_of;

/// The most digits of the number of units and of the number that a plan is made from.
const MOST_MAKE_DIGITS: usize = 18;

/// The most digits of the number of waiting places.
const MOST_PLACES_DIGITS: usize = 4;

/// The least number of waiting places.
const LEAST_PLACES: u32 = 1;

/// The most waiting places.
const MOST_PLACES: u32 = 1000;

/// The most digits of the number of calls in a hundred.
const MOST_PERCENT_DIGITS: usize = 3;

/// The most calls in a hundred.
const MOST_PERCENT: u32 = 100;

/// The measures by which the sites of a unit are compared.
const SITE_MEASURES: [Measure; 4] = [
    Measure::Loss,
    Measure::Delay,
    Measure::Interdistrict,
    Measure::Travel,
];

/// The command that these arguments give, which stand after the program's name.
pub fn read_words(alloc: Global, words: &[String]) -> Result<Command, WordsEnd>
    ensures read { IfOk result (λ c. command (map string_bytes words.now) ≡ Some c) }
    ensures no_command { IsErrOf result WordsEnd.NoCommand → command (map string_bytes words.now) ≡ None }
    ensures numbers { IfOk result NumbersInRange }
{
    let arguments = read_arguments(alloc, words)?;
    command_of(alloc, &arguments.plain, &arguments.options)
}

fn command_of(alloc: Global, plain: &[&str], settings: &[Setting]) -> Result<Command, WordsEnd>
    ensures given { Gives (with_plain (map (λ argument. argument.now) plain.now) settings.now) result }
    ensures numbers { IfOk result NumbersInRange }
{
    let [verb, names @ ..] = plain else {
        return Err(WordsEnd::NoCommand)
    };
    asked_by(alloc, verb, names, settings)
}

/// What the first plain argument, the others and the options ask for.
fn asked_by(
    alloc: Global,
    verb: &str,
    names: &[&str],
    settings: &[Setting],
) -> Result<Command, WordsEnd>
    ensures given { Gives (spec.asked_by verb.now (map (λ name. name.now) names.now) settings.now) result }
    ensures numbers { IfOk result NumbersInRange }
{
    match verb {
        "solve" => solve(alloc, names, settings),
        "compare" => compare(alloc, names, settings),
        "fleet" => fleet(alloc, names, settings),
        _ => without_options(alloc, verb, names, settings),
    }
}

#[tactic(auto, unfolding(crate::specs::Command::solve_of))]
fn solve(alloc: Global, names: &[&str], settings: &[Setting]) -> Result<Command, WordsEnd>
    ensures given { Gives (solve_of (map (λ name. name.now) names.now) settings.now) result }
    ensures numbers { IfOk result NumbersInRange }
{
    let (file, options) = file_with_options(alloc, names, settings)?;
    Ok(Command::Solve {
        file,
        widths: options.widths,
        workers: options.workers,
        summary: options.summary,
        method: options.method,
    })
}

#[tactic(auto, unfolding(crate::specs::Command::compare_of))]
fn compare(alloc: Global, names: &[&str], settings: &[Setting]) -> Result<Command, WordsEnd>
    ensures given { Gives (compare_of (map (λ name. name.now) names.now) settings.now) result }
    ensures numbers { IfOk result NumbersInRange }
{
    let (study, options) = file_with_options(alloc, names, settings)?;
    if options.summary {
        return Err(WordsEnd::NoCommand);
    }
    Ok(Command::Compare {
        study,
        widths: options.widths,
        workers: options.workers,
        method: options.method,
    })
}

#[tactic(auto, unfolding(crate::specs::Command::fleet_of))]
fn fleet(alloc: Global, names: &[&str], settings: &[Setting]) -> Result<Command, WordsEnd>
    ensures given { Gives (fleet_of (map (λ name. name.now) names.now) settings.now) result }
    ensures numbers { IfOk result NumbersInRange }
{
    if !are_of_report(settings) {
        return Err(WordsEnd::NoCommand);
    }
    let (file, options) = file_with_options(alloc, names, settings)?;
    Ok(Command::Fleet {
        file,
        widths: options.widths,
        summary: options.summary,
    })
}

/// The command of these plain arguments, if there is no option.
fn without_options(
    alloc: Global,
    verb: &str,
    names: &[&str],
    settings: &[Setting],
) -> Result<Command, WordsEnd>
    ensures given { Gives (spec.without_options (spec.plain_command verb.now (map (λ name. name.now) names.now)) settings.now) result }
    ensures numbers { IfOk result NumbersInRange }
{
    if !settings.is_empty() {
        return Err(WordsEnd::NoCommand);
    }
    match verb {
        "make" => make(names),
        "finite" => finite(alloc, names),
        "pairs" => pairs(alloc, names),
        "sweep" => sweep(alloc, names),
        "replay" => replay(alloc, names),
        "reach" => reach(alloc, names),
        _ => Err(WordsEnd::NoCommand),
    }
}

#[tactic(auto, unfolding(crate::specs::Command::make_of))]
fn make(numbers: &[&str]) -> Result<Command, WordsEnd>
    ensures given { Gives (make_of (map (λ number. number.now) numbers.now)) result }
    ensures numbers { IfOk result NumbersInRange }
{
    let [units, number] = numbers else {
        return Err(WordsEnd::NoCommand)
    };
    let Some(units) = number_of(units, MOST_MAKE_DIGITS) else {
        return Err(WordsEnd::NoCommand)
    };
    let Some(number) = number_of(number, MOST_MAKE_DIGITS) else {
        return Err(WordsEnd::NoCommand)
    };
    Ok(Command::Make { units, number })
}

#[tactic(auto, unfolding(crate::specs::Command::finite_of))]
fn finite(alloc: Global, names: &[&str]) -> Result<Command, WordsEnd>
    ensures given { Gives (finite_of (map (λ name. name.now) names.now)) result }
    ensures numbers { IfOk result NumbersInRange }
{
    let (file, places) = file_with_number(
        alloc,
        names,
        MOST_PLACES_DIGITS,
        LEAST_PLACES,
        MOST_PLACES,
    )?;
    Ok(Command::Finite { file, places })
}

#[tactic(auto, unfolding(crate::specs::Command::pairs_of))]
fn pairs(alloc: Global, names: &[&str]) -> Result<Command, WordsEnd>
    ensures given { Gives (pairs_of (map (λ name. name.now) names.now)) result }
    ensures numbers { IfOk result NumbersInRange }
{
    let (file, percent) = file_with_number(alloc, names, MOST_PERCENT_DIGITS, 0, MOST_PERCENT)?;
    Ok(Command::Pairs { file, percent })
}

#[tactic(auto, unfolding(crate::specs::Command::sweep_of))]
fn sweep(alloc: Global, names: &[&str]) -> Result<Command, WordsEnd>
    ensures given { Gives (sweep_of (map (λ name. name.now) names.now)) result }
    ensures numbers { IfOk result NumbersInRange }
{
    let [file, unit, word] = names else {
        return Err(WordsEnd::NoCommand)
    };
    let Some(measure) = site_measure(word) else {
        return Err(WordsEnd::NoCommand)
    };
    Ok(Command::Sweep {
        file: read_text(alloc, file, MOST_FILE_NAME_BYTES)?,
        unit: read_text(alloc, unit, MOST_NAME_BYTES)?,
        measure,
    })
}

/// The measure of this word, if sites are compared by it.
fn site_measure(word: &str) -> Option<Measure>
    ensures measure { result ≡ spec.site_measure word.now }
    ensures region { IfSome result (λ measure. is_of_region measure ≡ true) }
{
    find_measure(word)
}

fn find_measure(word: &str) -> Option<Measure>
    ensures { result ≡ spec.site_measure word.now }
{
    SITE_MEASURES
        .iter()
        .copied()
        .find(|measure| word == measure.word())
}

#[tactic(auto, unfolding(crate::specs::Command::replay_of))]
fn replay(alloc: Global, names: &[&str]) -> Result<Command, WordsEnd>
    ensures given { Gives (replay_of (map (λ name. name.now) names.now)) result }
    ensures numbers { IfOk result NumbersInRange }
{
    let [file, day] = names else {
        return Err(WordsEnd::NoCommand)
    };
    Ok(Command::Replay {
        file: read_text(alloc, file, MOST_FILE_NAME_BYTES)?,
        day: read_text(alloc, day, MOST_FILE_NAME_BYTES)?,
    })
}

#[tactic(auto, unfolding(crate::specs::Command::reach_of))]
fn reach(alloc: Global, names: &[&str]) -> Result<Command, WordsEnd>
    ensures given { Gives (reach_of (map (λ name. name.now) names.now)) result }
    ensures numbers { IfOk result NumbersInRange }
{
    let [file, seconds] = names else {
        return Err(WordsEnd::NoCommand)
    };
    Ok(Command::Reach {
        file: read_text(alloc, file, MOST_FILE_NAME_BYTES)?,
        limits: read_limits(alloc, seconds)?,
    })
}
