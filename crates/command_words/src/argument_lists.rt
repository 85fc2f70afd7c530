ghost use Rattle.std.specs.Prelude.{◌≡◌, ◌≢◌, map, OnOk, Err};
ghost use Rattle.std.specs.String.{string_bytes};
ghost use Rattle.command_words.specs.Arguments.{Reads, concatenation, lists_in, lists_of_one};

use crate::WordsEnd;
use crate::argument::{Argument, Mode};
use crate::options::Setting;
use std::alloc::Global;

/// The plain arguments and the options of a command, each in the order in which they stand.
#[derive(Debug, Drop)]
pub(crate) struct Arguments<'a> {
    pub plain: Vec<&'a str>,
    pub options: Vec<Setting>,
}

pub(crate) fn read_arguments<'a>(
    alloc: Global,
    words: &'a [String],
) -> Result<Arguments<'a>, WordsEnd>
    ensures { Reads (map string_bytes words.now) result }
{
    let mut arguments = Arguments {
        plain: Vec::new(alloc),
        options: Vec::new(alloc),
    };
    let mut mode = Mode::Free;
    for text in words {
        let text = text.as_str();
        let Some(argument) = mode.read(text) else {
            return Err(WordsEnd::NoCommand)
        };
        add(&mut arguments, argument, text)?;
        mode = mode.after(argument);
    }
    if mode.may_end() {
        Ok(arguments)
    } else {
        Err(WordsEnd::NoCommand)
    }
}

fn add<'a>(arguments: &mut Arguments<'a>, argument: Argument, text: &'a str) -> Result<(), WordsEnd>
    ensures added { OnOk result (lists_in arguments.new ≡ concatenation (lists_in arguments.old) (lists_of_one argument text.now)) }
    ensures no_memory { result ≢ Err WordsEnd.NoCommand }
{
    match argument {
        Argument::Plain => arguments.plain.push(text).map_err(|_| WordsEnd::NoMemory),
        Argument::Option(setting) => arguments
            .options
            .push(setting)
            .map_err(|_| WordsEnd::NoMemory),
        Argument::Name(_) | Argument::Dashes => Ok(()),
    }
}
