use std::fmt;

/// A number in digits, with a comma before each three of the last six.
#[derive(Clone, Copy, Debug, PartialEq, Eq)]
pub(crate) struct Grouped(pub u64);

impl fmt::Display for Grouped {
    fn fmt<W: fmt::Write>(&self, f: &mut fmt::Formatter<W>) -> fmt::Result {
        let units = self.0 % 1000;
        let thousands = self.0 / 1000 % 1000;
        let millions = self.0 / 1_000_000;
        if millions > 0 {
            write!(f, "{millions},{thousands:03},{units:03}")
        } else if thousands > 0 {
            write!(f, "{thousands},{units:03}")
        } else {
            write!(f, "{units}")
        }
    }
}
