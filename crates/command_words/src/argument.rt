ghost use Rattle.std.specs.Prelude.{◌≡◌, true, false, MatchOption};
ghost use Rattle.command_words.specs.Arguments as spec;
ghost use Rattle.command_words.specs.Arguments.{begins};

use crate::options::{Key, Setting};

/// How the next argument is read.
#[derive(Clone, Copy, Debug, PartialEq, Eq)]
pub(crate) enum Mode {
    /// Options may stand.
    Free,
    /// After the name of an option, whose value it is.
    Value(Key),
    /// After the argument that ends the options.
    Plain,
}

/// What an argument is.
#[derive(Clone, Copy, Debug, PartialEq, Eq)]
pub(crate) enum Argument {
    /// A plain argument.
    Plain,
    /// The name of an option, whose value is the next argument.
    Name(Key),
    /// An option with its value.
    Option(Setting),
    /// The argument that ends the options.
    Dashes,
}

impl Mode {
    /// What a text is as an argument that is read so, if it is one.
    pub fn read(self, text: &str) -> Option<Argument>
        ensures { result ≡ spec.argument_in self text.now }
    {
        match self {
            Mode::Free => free_argument(text),
            Mode::Value(key) => option_argument(key, text),
            Mode::Plain => Some(Argument::Plain),
        }
    }

    /// How the argument after this one is read.
    pub fn after(self, argument: Argument) -> Mode
        ensures { result ≡ spec.mode_after self argument }
    {
        match argument {
            Argument::Plain => self,
            Argument::Name(key) => Mode::Value(key),
            Argument::Option(_) => Mode::Free,
            Argument::Dashes => Mode::Plain,
        }
    }

    /// Whether the arguments may end here: not before a value that has to come.
    pub fn may_end(self) -> bool
        ensures { result ≡ spec.may_end self }
    {
        !matches!(self, Mode::Value(_))
    }
}

#[tactic(auto, unfolding(crate::specs::Arguments::free_argument))]
fn free_argument(text: &str) -> Option<Argument>
    ensures { result ≡ spec.free_argument text.now }
{
    match text {
        "--" => Some(Argument::Dashes),
        "-" => Some(Argument::Plain),
        "--summary" => Some(Argument::Option(Setting::Summary)),
        "--width" => Some(Argument::Name(Key::Width)),
        "--time-width" => Some(Argument::Name(Key::TimeWidth)),
        "--workers" => Some(Argument::Name(Key::Workers)),
        "--method" => Some(Argument::Name(Key::Method)),
        _ => long_argument(text),
    }
}

#[tactic(auto, unfolding(crate::specs::Arguments::long_argument))]
fn long_argument(text: &str) -> Option<Argument>
    ensures { result ≡ spec.long_argument text.now }
{
    if let Some(value) = rest_after("--width=", text) {
        option_argument(Key::Width, value)
    } else if let Some(value) = rest_after("--time-width=", text) {
        option_argument(Key::TimeWidth, value)
    } else if let Some(value) = rest_after("--workers=", text) {
        option_argument(Key::Workers, value)
    } else if let Some(value) = rest_after("--method=", text) {
        option_argument(Key::Method, value)
    } else if rest_after("-", text).is_some() {
        None
    } else {
        Some(Argument::Plain)
    }
}

fn option_argument(key: Key, value: &str) -> Option<Argument>
    ensures { result ≡ spec.option_argument key value.now }
{
    Some(Argument::Option(key.setting(value)?))
}

/// What follows such a beginning, if the text has it.
fn rest_after<'a>(begin: &str, text: &'a str) -> Option<&'a str>
    ensures { MatchOption result
        (begins begin.now text.now ≡ false)
        (λ rest. (begins begin.now text.now ≡ true) × (rest.now ≡ spec.rest_after begin.now text.now)) }
{
    text.strip_prefix(begin)
}
