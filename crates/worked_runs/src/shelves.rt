use hyper_model::Name;
use outer_world::{Bytes, NamedText};
use std::alloc::{AllocError, Global};
use worked_plans::{
    HALF_LOAD, LITTLE_MORE, ONE_GROUP, SEVEN_SWAMPED, THIRD_LOAD, THIRD_LOAD_WITH_A_QUEUE,
    THREE_UNLIKE, TWO_UNITS, TWO_UNITS_WITH_A_QUEUE,
};

/// The words of a command line without blanks in its words.
pub(crate) fn words_of(alloc: Global, line: &str) -> Result<Vec<String>, AllocError> {
    let mut words = Vec::new(alloc);
    for word in line.split(' ') {
        words.push(String::from_str(alloc, word)?)?;
    }
    Ok(words)
}

/// A shelf that has this text by the names `a.csv`, `-x.csv` and `s.toml`, and beside it the plans that studies and days go
/// with.
pub(crate) fn shelf_with(alloc: Global, text: &[u8]) -> Result<Vec<NamedText>, AllocError> {
    let mut texts = texts_of(alloc, PLANS)?;
    for name in ["a.csv", "-x.csv", "s.toml"] {
        texts
            .push(text_of(alloc, name, text)?)
            .map_err(|_| AllocError)?;
    }
    Ok(texts)
}

const PLANS: &[(&str, &str)] = &[
    ("half.csv", HALF_LOAD),
    ("third.csv", THIRD_LOAD),
    ("more.csv", LITTLE_MORE),
    ("two.csv", TWO_UNITS),
    ("swamped.csv", SEVEN_SWAMPED),
    ("queue.csv", THIRD_LOAD_WITH_A_QUEUE),
    ("late.csv", TWO_UNITS_WITH_A_QUEUE),
    ("group.csv", ONE_GROUP),
    ("unlike.csv", THREE_UNLIKE),
    ("bad.csv", "station,A\n"),
];

/// Texts with their names.
pub(crate) fn texts_of(
    alloc: Global,
    texts: &[(&str, &str)],
) -> Result<Vec<NamedText>, AllocError> {
    let mut named = Vec::new(alloc);
    for (name, text) in texts {
        named
            .push(text_of(alloc, name, text.as_bytes())?)
            .map_err(|_| AllocError)?;
    }
    Ok(named)
}

pub(crate) fn text_of(alloc: Global, name: &str, bytes: &[u8]) -> Result<NamedText, AllocError> {
    let Ok(name) = Name::of(alloc, name.as_bytes()) else {
        return Err(AllocError)
    };
    Ok(NamedText {
        name,
        bytes: Bytes::of(alloc, bytes)?,
    })
}
