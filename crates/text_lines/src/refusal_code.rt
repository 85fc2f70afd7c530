/// The number and the arguments by which a refusal is reported.
#[derive(Clone, Copy, Debug, PartialEq, Eq)]
pub struct RefusalCode {
    /// The number of the reason, and 0 for lack of memory, which is never reported.
    pub number: u32,
    /// In order, at most two.
    pub arguments: [Option<u64>; 2],
}

impl RefusalCode {
    ghost use Rattle.std.specs.Prelude.{◌≡◌};
    ghost use Rattle.text_lines.specs.RefusalCodes as spec;

    /// The code of a reason without arguments.
    pub fn plain(number: u32) -> RefusalCode
        ensures { result ≡ spec.plain number }
    {
        RefusalCode {
            number,
            arguments: [None, None],
        }
    }

    /// The code of a reason with one argument.
    pub fn of_one(number: u32, argument: u64) -> RefusalCode
        ensures { result ≡ spec.of_one number argument }
    {
        RefusalCode {
            number,
            arguments: [Some(argument), None],
        }
    }

    /// The code of a reason with two arguments.
    pub fn of_two(number: u32, first: u64, second: u64) -> RefusalCode
        ensures { result ≡ spec.of_two number first second }
    {
        RefusalCode {
            number,
            arguments: [Some(first), Some(second)],
        }
    }
}
