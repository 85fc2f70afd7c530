use crate::arguments::{Arguments, Given};
use crate::commands::{
    COMMAND_WORDS, CommandForm, METHODS, Operand, OptionForm, OptionValue, Range, SITE_MEASURES,
    command_named,
};
use crate::limit_faults::limits_fault;
use crate::near::nearest_word;
use crate::quoted::Quoted;
use std::alloc::{AllocError, Global};

/// The most bytes of the name of a file.
const MOST_FILE_BYTES: usize = 255;

/// The most bytes of the name of a unit.
const MOST_UNIT_BYTES: usize = 32;

/// What is wrong with arguments that are no command: first an option that there is not, then what else.
pub(crate) fn usage_fault(alloc: Global, words: &[String]) -> Result<String, AllocError> {
    let Arguments {
        plain,
        options,
        fault,
    } = Arguments::of(alloc, words)?;
    match fault {
        Some(fault) => Ok(fault),
        None => command_fault(alloc, &plain, &options),
    }
}

fn command_fault(
    alloc: Global,
    plain: &[&str],
    options: &[Given<'_>],
) -> Result<String, AllocError> {
    let Some(word) = plain.first() else {
        return String::from_str(alloc, "no command is given.")
    };
    match command_named(word) {
        Some(command) => form_fault(alloc, command, plain, options),
        None => unknown_command(alloc, word),
    }
}

fn form_fault(
    alloc: Global,
    command: &CommandForm,
    plain: &[&str],
    options: &[Given<'_>],
) -> Result<String, AllocError> {
    if plain.len() != command.operands.len().saturating_add(1) {
        return wrong_count(alloc, command, plain);
    }
    if let Some(fault) = operand_fault(alloc, command, plain)? {
        return Ok(fault);
    }
    match options_fault(alloc, command, options)? {
        Some(fault) => Ok(fault),
        None => String::from_str(alloc, "these words are no command."),
    }
}

fn unknown_command(alloc: Global, word: &str) -> Result<String, AllocError> {
    let shown = Quoted(word.as_bytes());
    match nearest_word(word.as_bytes(), COMMAND_WORDS) {
        Some(near) => format!(in alloc; "there is no command {shown}. Write {near}."),
        None if word.ends_with(".csv") => {
            format!(in alloc;
                "there is no command {shown}. Write solve in front of the name of a plan."
            )
        }
        None => format!(in alloc; "there is no command {shown}."),
    }
}

fn wrong_count(alloc: Global, command: &CommandForm, plain: &[&str]) -> Result<String, AllocError> {
    let pattern = command.pattern;
    match plain.get(command.operands.len().saturating_add(1)) {
        Some(word) => {
            let shown = Quoted(word.as_bytes());
            format!(in alloc;
                "{shown} is a word too many. Write {pattern}, and a name with blanks in quotes."
            )
        }
        None => {
            let word = command.word;
            format!(in alloc; "{word} lacks a word. Write {pattern}.")
        }
    }
}

/// What is wrong with the first of a command's operands that is none.
fn operand_fault(
    alloc: Global,
    command: &CommandForm,
    plain: &[&str],
) -> Result<Option<String>, AllocError> {
    for (operand, word) in command.operands.iter().zip(plain.iter().skip(1)) {
        let fault = match operand {
            Operand::File(what) => file_fault(alloc, what, word)?,
            Operand::Unit => unit_fault(alloc, word)?,
            Operand::Measure => measure_fault(alloc, word)?,
            Operand::Number(range) => number_fault(alloc, range.word, range, word)?,
            Operand::Limits => limits_fault(alloc, word)?,
        };
        if fault.is_some() {
            return Ok(fault);
        }
    }
    Ok(None)
}

fn file_fault(alloc: Global, what: &str, word: &str) -> Result<Option<String>, AllocError> {
    if word.is_empty() {
        return Ok(Some(format!(in alloc; "the name of the {what} is empty.")?));
    }
    if word.len() > MOST_FILE_BYTES {
        let name = Quoted(word.as_bytes());
        let count = word.len();
        return Ok(Some(format!(in alloc;
            "the name {name} of the {what} has {count} bytes, and may have 255. Go to its folder first."
        )?));
    }
    Ok(None)
}

fn unit_fault(alloc: Global, word: &str) -> Result<Option<String>, AllocError> {
    if !word.is_empty() && word.len() <= MOST_UNIT_BYTES {
        return Ok(None);
    }
    let name = Quoted(word.as_bytes());
    Ok(Some(format!(in alloc; "{name} is no name of a unit, which has 1 to 32 bytes.")?))
}

fn measure_fault(alloc: Global, word: &str) -> Result<Option<String>, AllocError> {
    if SITE_MEASURES.contains(&word) {
        return Ok(None);
    }
    let name = Quoted(word.as_bytes());
    Ok(Some(format!(in alloc;
        "sites are not tried by {name}. Write loss, delay, interdistrict or travel."
    )?))
}

/// What is wrong with a word that is to be a number in a range.
fn number_fault(
    alloc: Global,
    what: &'static str,
    range: &Range,
    word: &str,
) -> Result<Option<String>, AllocError> {
    if range.number_of(word).is_some() {
        return Ok(None);
    }
    let shown = Quoted(word.as_bytes());
    let wanted = range.wanted;
    Ok(Some(format!(in alloc; "{what} is {shown}, and has to be {wanted}.")?))
}

/// What is wrong with the first option that is, if any.
fn options_fault(
    alloc: Global,
    command: &CommandForm,
    options: &[Given<'_>],
) -> Result<Option<String>, AllocError> {
    for (place, given) in options.iter().enumerate() {
        let is_second = options
            .iter()
            .take(place)
            .any(|other| other.option.name == given.option.name);
        let fault = option_fault(alloc, command, *given, is_second)?;
        if fault.is_some() {
            return Ok(fault);
        }
    }
    Ok(None)
}

fn option_fault(
    alloc: Global,
    command: &CommandForm,
    given: Given<'_>,
    is_second: bool,
) -> Result<Option<String>, AllocError> {
    let name = given.option.name;
    let word = command.word;
    if !command.options.contains(&name) {
        return Ok(Some(format!(in alloc; "{word} has no option {name}.")?));
    }
    if is_second {
        return Ok(Some(format!(in alloc; "{name} stands there twice.")?));
    }
    value_fault(alloc, given.option, given.value)
}

fn value_fault(
    alloc: Global,
    option: &OptionForm,
    value: Option<&str>,
) -> Result<Option<String>, AllocError> {
    let name = option.name;
    match (option.value, value) {
        (Some(OptionValue::Number(range)), Some(value)) => number_fault(alloc, name, range, value),
        (Some(OptionValue::Number(_)), None) => {
            Ok(Some(format!(in alloc; "a number has to follow {name}.")?))
        }
        (Some(OptionValue::Method), Some(value)) => method_fault(alloc, name, value),
        (Some(OptionValue::Method), None) => {
            Ok(Some(format!(in alloc; "elimination or certificate has to follow {name}.")?))
        }
        (None, Some(_)) => Ok(Some(format!(in alloc; "{name} has no value.")?)),
        (None, None) => Ok(None),
    }
}

fn method_fault(
    alloc: Global,
    name: &'static str,
    word: &str,
) -> Result<Option<String>, AllocError> {
    if METHODS.contains(&word) {
        return Ok(None);
    }
    let shown = Quoted(word.as_bytes());
    Ok(Some(format!(in alloc; "{name} is {shown}, and has to be elimination or certificate.")?))
}
