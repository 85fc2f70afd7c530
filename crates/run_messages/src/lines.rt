/// A byte order mark.
const MARK: &[u8] = b"\xEF\xBB\xBF";

/// A text after all byte order marks in front.
pub(crate) fn without_marks(text: &[u8]) -> &[u8] {
    let count = text
        .chunks_exact(MARK.len())
        .take_while(|chunk| *chunk == MARK)
        .count();
    text.split_at(count.saturating_mul(MARK.len()).min(text.len()))
        .1
}

/// The line of a text in which a byte stands, counted from 1.
#[derive(Clone, Copy)]
struct Line {
    number: u64,
    after_return: bool,
}

impl Line {
    /// The line after this byte. A return and a feed after it end one line together.
    fn after(self, byte: u8) -> Line {
        let is_end = byte == b'\r' || (byte == b'\n' && !self.after_return);
        Line {
            number: self.number.saturating_add(u64::from(is_end)),
            after_return: byte == b'\r',
        }
    }
}

/// A text that is gone through once, from its beginning on.
#[derive(Drop)]
pub(crate) struct Lines<'a> {
    rest: &'a [u8],
    passed: u64,
    line: Line,
}

impl<'a> Lines<'a> {
    /// The whole text.
    pub fn of(text: &'a [u8]) -> Lines<'a> {
        Lines {
            rest: text,
            passed: 0,
            line: Line {
                number: 1,
                after_return: false,
            },
        }
    }

    /// The line of the record that begins with the byte at this place, or after the ends of lines that stand there.
    pub fn go_to(&mut self, place: u64) -> u64 {
        let count = place
            .saturating_sub(self.passed)
            .min(self.rest.len() as u64);
        let (passed, rest) = self.rest.split_at(count as usize);
        self.line = passed
            .iter()
            .fold(self.line, |line, byte| line.after(*byte));
        self.rest = rest;
        self.passed = self.passed.saturating_add(count);
        rest.iter()
            .take_while(|byte| matches!(**byte, b'\r' | b'\n'))
            .fold(self.line, |line, byte| line.after(*byte))
            .number
    }
}
