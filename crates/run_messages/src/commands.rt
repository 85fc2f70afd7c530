/// What stands after a command's word.
#[derive(Clone, Copy)]
pub(crate) enum Operand {
    /// The name of a file with this in it.
    File(&'static str),
    /// The name of a unit.
    Unit,
    /// The word of a measure.
    Measure,
    /// A number.
    Number(&'static Range),
    /// Limits in seconds.
    Limits,
}

/// What the value of an option is.
#[derive(Clone, Copy)]
pub(crate) enum OptionValue {
    /// A number.
    Number(&'static Range),
    /// The word of a method.
    Method,
}

/// A number of the command line.
#[derive(Clone, Copy)]
pub(crate) struct Range {
    pub word: &'static str,
    pub least: u64,
    pub most: u64,
    /// The most digits, leading zeros included.
    pub digits: usize,
    /// What has to stand there.
    pub wanted: &'static str,
}

impl Range {
    /// The number that a word is, if it has so many digits at most and is in the range.
    pub fn number_of(&self, word: &str) -> Option<u64> {
        let is_short = !word.is_empty() && word.len() <= self.digits;
        if !is_short || !word.bytes().all(|byte| byte.is_ascii_digit()) {
            return None;
        }
        let number = word.parse::<u64>().ok()?;
        (self.least <= number && number <= self.most).then_some(number)
    }
}

/// A command.
#[derive(Clone, Copy)]
pub(crate) struct CommandForm {
    pub word: &'static str,
    /// How it is written, without options.
    pub pattern: &'static str,
    pub about: &'static str,
    pub operands: &'static [Operand],
    /// The names of the options that may go with it.
    pub options: &'static [&'static str],
}

/// An option.
#[derive(Clone, Copy)]
pub(crate) struct OptionForm {
    pub name: &'static str,
    pub pattern: &'static str,
    pub about: &'static str,
    /// What its value is, if it has one.
    pub value: Option<OptionValue>,
}

/// The words of the measures by which sites are tried.
pub(crate) const SITE_MEASURES: &[&str] = &["loss", "delay", "interdistrict", "travel"];

/// The words of the methods by which weights are found.
pub(crate) const METHODS: &[&str] = &["elimination", "certificate"];

/// The most limits.
pub(crate) const MOST_LIMITS: usize = 16;

/// A limit.
pub(crate) const LIMIT: Range = Range {
    word: "SECONDS",
    least: 0,
    most: 100_000,
    digits: 6,
    wanted: "a number from 0 to 100,000, of at most 6 digits",
};

const UNITS: Range = Range {
    word: "UNITS",
    least: 0,
    most: 999_999_999_999_999_999,
    digits: 18,
    wanted: "a number from 2 to 10",
};

const NUMBER: Range = Range {
    word: "NUMBER",
    least: 0,
    most: 999_999_999_999_999_999,
    digits: 18,
    wanted: "a number from 0 to 4,294,967,295",
};

const PLACES: Range = Range {
    word: "PLACES",
    least: 1,
    most: 1000,
    digits: 4,
    wanted: "a number from 1 to 1,000, of at most 4 digits",
};

const PERCENT: Range = Range {
    word: "PERCENT",
    least: 0,
    most: 100,
    digits: 3,
    wanted: "a number from 0 to 100, of at most 3 digits",
};

const WIDTH: Range = Range {
    word: "W",
    least: 2,
    most: 999_999_999,
    digits: 9,
    wanted: "a number from 2 to 999,999,999, of at most 9 digits",
};

const WORKERS: Range = Range {
    word: "N",
    least: 1,
    most: 16,
    digits: 9,
    wanted: "a number from 1 to 16",
};

/// All commands, in the order of the help.
pub(crate) const COMMANDS: &[CommandForm] = &[
    CommandForm {
        word: "solve",
        pattern: "solve PLAN",
        about: "all measures of a plan",
        operands: &[Operand::File("plan")],
        options: &[
            "--width",
            "--time-width",
            "--workers",
            "--summary",
            "--method",
        ],
    },
    CommandForm {
        word: "compare",
        pattern: "compare STUDY",
        about: "2 to 16 plans, which a TOML file names, by 1 to 16 measures",
        operands: &[Operand::File("study")],
        options: &["--width", "--time-width", "--workers", "--method"],
    },
    CommandForm {
        word: "make",
        pattern: "make UNITS NUMBER",
        about: "a plan to try things on: UNITS from 2 to 10, NUMBER from 0 to 4,294,967,295",
        operands: &[Operand::Number(&UNITS), Operand::Number(&NUMBER)],
        options: &[],
    },
    CommandForm {
        word: "finite",
        pattern: "finite PLAN PLACES",
        about: "a plan if only so many calls can wait: PLACES from 1 to 1,000",
        operands: &[Operand::File("plan"), Operand::Number(&PLACES)],
        options: &[],
    },
    CommandForm {
        word: "pairs",
        pattern: "pairs PLAN PERCENT",
        about: "a plan if so many of a hundred calls need two units: PERCENT from 0 to 100",
        operands: &[Operand::File("plan"), Operand::Number(&PERCENT)],
        options: &[],
    },
    CommandForm {
        word: "sweep",
        pattern: "sweep PLAN UNIT MEASURE",
        about: "where to put a unit: MEASURE is loss, delay, interdistrict or travel",
        operands: &[Operand::File("plan"), Operand::Unit, Operand::Measure],
        options: &[],
    },
    CommandForm {
        word: "replay",
        pattern: "replay PLAN DAY",
        about: "a recorded day beside the plan",
        operands: &[Operand::File("plan"), Operand::File("day")],
        options: &[],
    },
    CommandForm {
        word: "reach",
        pattern: "reach PLAN SECONDS",
        about: "which share of calls is reached in time: SECONDS is 1 to 16 numbers, as 240,480,720",
        operands: &[Operand::File("plan"), Operand::Limits],
        options: &[],
    },
    CommandForm {
        word: "fleet",
        pattern: "fleet FLEET",
        about: "all measures of a fleet: up to 200 crews, alike at each of up to twelve stations",
        operands: &[Operand::File("fleet")],
        options: &["--width", "--time-width", "--summary"],
    },
];

/// All options, in the order of the help.
pub(crate) const OPTIONS: &[OptionForm] = &[
    OptionForm {
        name: "--width",
        pattern: "--width W",
        about: "how far the ends of a share may lie apart, in millionths: 2 to 999,999,999; default: any",
        value: Some(OptionValue::Number(&WIDTH)),
    },
    OptionForm {
        name: "--time-width",
        pattern: "--time-width W",
        about: "how far the ends of a time may, in thousandths of a second: 2 to 999,999,999; default: any",
        value: Some(OptionValue::Number(&WIDTH)),
    },
    OptionForm {
        name: "--workers",
        pattern: "--workers N",
        about: "not for fleet: how many processors share the work, 1 to 16; default: 1",
        value: Some(OptionValue::Number(&WORKERS)),
    },
    OptionForm {
        name: "--summary",
        pattern: "--summary",
        about: "not for compare: only the measures of the whole region; default: all measures",
        value: None,
    },
    OptionForm {
        name: "--method",
        pattern: "--method METHOD",
        about: "not for fleet: how intervals are found, elimination or certificate; default: elimination",
        value: Some(OptionValue::Method),
    },
];

/// The words of all commands.
pub(crate) const COMMAND_WORDS: &[&str] = &[
    "solve", "compare", "make", "finite", "pairs", "sweep", "replay", "reach", "fleet",
];

/// The names of all options, and the two words that ask for help.
pub(crate) const OPTION_NAMES: &[&str] = &[
    "--width",
    "--time-width",
    "--workers",
    "--summary",
    "--method",
    "--help",
    "--version",
];

/// The command of this word.
pub(crate) fn command_named(word: &str) -> Option<&'static CommandForm> {
    COMMANDS.iter().find(|command| command.word == word)
}

/// The option of this name.
pub(crate) fn option_named(name: &str) -> Option<&'static OptionForm> {
    OPTIONS.iter().find(|option| option.name == name)
}
