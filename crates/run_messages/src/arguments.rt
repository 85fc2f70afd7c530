use crate::commands::{OPTION_NAMES, OptionForm, option_named};
use crate::near::nearest_word;
use crate::quoted::Quoted;
use std::alloc::{AllocError, Global};

/// An option as it stands in the arguments, with its value.
#[derive(Clone, Copy)]
pub(crate) struct Given<'a> {
    pub option: &'static OptionForm,
    pub value: Option<&'a str>,
}

/// The arguments, plain ones and options apart, as far as they can be read.
#[derive(Drop)]
pub(crate) struct Arguments<'a> {
    pub plain: Vec<&'a str>,
    pub options: Vec<Given<'a>>,
    /// What is wrong with the first option that is none.
    pub fault: Option<String>,
}

/// How the next argument is read.
#[derive(Clone, Copy)]
enum Mode {
    Free,
    Value(&'static OptionForm),
    Plain,
}

impl<'a> Arguments<'a> {
    /// Reads them as the program does.
    pub fn of(alloc: Global, words: &'a [String]) -> Result<Arguments<'a>, AllocError> {
        let mut arguments = Arguments {
            plain: Vec::new(alloc),
            options: Vec::new(alloc),
            fault: None,
        };
        let mut mode = Mode::Free;
        for word in words {
            mode = arguments.add(alloc, mode, word.as_str())?;
        }
        if let Mode::Value(option) = mode {
            let value = None;
            arguments.options.push(Given { option, value })?;
        }
        Ok(arguments)
    }

    /// The plain argument at this place, counted from 0.
    pub fn plain_at(&self, place: usize) -> Option<&'a str> {
        self.plain.get(place).copied()
    }

    fn add(&mut self, alloc: Global, mode: Mode, word: &'a str) -> Result<Mode, AllocError> {
        match mode {
            Mode::Value(option) => {
                let value = Some(word);
                self.options.push(Given { option, value })?;
                Ok(Mode::Free)
            }
            Mode::Free if word == "--" => Ok(Mode::Plain),
            Mode::Free if word.starts_with("-") && word != "-" => self.add_option(alloc, word),
            _ => {
                self.plain.push(word)?;
                Ok(mode)
            }
        }
    }

    fn add_option(&mut self, alloc: Global, word: &'a str) -> Result<Mode, AllocError> {
        let (name, value) = match word.split_once('=') {
            Some((name, value)) => (name, Some(value)),
            None => (word, None),
        };
        let Some(option) = option_named(name) else {
            self.fault = Some(unknown_option(alloc, name)?);
            return Ok(Mode::Free);
        };
        if option.value.is_some() && value.is_none() {
            return Ok(Mode::Value(option));
        }
        self.options.push(Given { option, value })?;
        Ok(Mode::Free)
    }
}

fn unknown_option(alloc: Global, name: &str) -> Result<String, AllocError> {
    let shown = Quoted(name.as_bytes());
    match nearest_word(name.as_bytes(), OPTION_NAMES) {
        Some(near) => format!(in alloc; "there is no option {shown}. Write {near}."),
        None => format!(in alloc;
            "there is no option {shown}. Write -- in front of a name that begins with a dash."
        ),
    }
}
