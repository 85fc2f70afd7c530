use std::fmt;

/// Where a record stands: its number, and the line of the file in which it begins, both counted from 1.
#[derive(Clone, Copy, Debug, PartialEq, Eq)]
pub(crate) struct At {
    pub number: u32,
    pub line: u64,
}

impl fmt::Display for At {
    fn fmt<W: fmt::Write>(&self, f: &mut fmt::Formatter<W>) -> fmt::Result {
        let number = self.number;
        let line = self.line;
        write!(f, "record {number} (line {line})")
    }
}
