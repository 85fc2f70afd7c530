use std::alloc::{AllocError, Global};

/// A text in pieces.
pub(crate) type Pieces = &'static [&'static str];

/// The records of a plan of one unit, which serves two calls for each that comes.
pub(crate) const UNIT: &str = "unit,A,2\n";

pub(crate) const ATOM: &str = "atom,P,1,0,0,A\n";

pub(crate) const TRIP: &str = "travel,P,P,300\n";

pub(crate) const PLACE: &str = "at,A,P,1000\n";

pub(crate) const LIST: &str = "prefer,P,A\n";

/// The records of a plan of two units, each in a district of its own and first on the list of its atom.
pub(crate) const UNITS: &str = "unit,A,3\nunit,B,3\n";

pub(crate) const ATOMS: &str = "atom,P,1,0,0,A\natom,Q,1,9,0,B\n";

pub(crate) const TRIPS: &str = "travel,P,P,60\ntravel,P,Q,300\ntravel,Q,P,300\ntravel,Q,Q,60\n";

pub(crate) const PLACES: &str = "at,A,P,1000\nat,B,Q,1000\n";

pub(crate) const LISTS: &str = "prefer,P,A,B\nprefer,Q,B,A\n";

pub(crate) fn text_of(alloc: Global, pieces: &[&str]) -> Result<String, AllocError> {
    let mut text = String::new(alloc);
    for piece in pieces {
        text.push_str(piece)?;
    }
    Ok(text)
}
