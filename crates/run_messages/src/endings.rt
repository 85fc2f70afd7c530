use crate::kept::Kept;
use crate::quoted::FileName;
use crate::unsaid::Unsaid;
use std::alloc::{AllocError, Global};

/// A file that is not there.
pub(crate) fn absent(alloc: Global, kept: &Kept) -> Result<String, Unsaid> {
    let asked = kept.last_name().ok_or(Unsaid::Unknown)?;
    let name = FileName(asked);
    if asked.starts_with("/") {
        return Ok(format!(in alloc;
            "hypercube: there is no file {name}. Is its name spelled so, with these capitals?\n"
        )?);
    }
    Ok(format!(in alloc;
        "hypercube: there is no file {name} in the current folder, where names begin, those in a study too. Is \
its name spelled so, with these capitals?\n"
    )?)
}

/// A file that was not read.
pub(crate) fn unread(alloc: Global, kept: &Kept) -> Result<String, Unsaid> {
    let name = FileName(kept.last_name().ok_or(Unsaid::Unknown)?);
    Ok(format!(in alloc;
        "hypercube: {name} was not read: it is a folder, it may not be read by you, or its disk failed.\n"
    )?)
}

/// What is said of output that was not written.
pub(crate) const UNWRITTEN: &str =
    "hypercube: the output was not written whole: the disk is full, or whatever was to read \
it has ended. What stands there is only its beginning: make room, and run the same again.\n";

/// What is said for lack of memory.
pub(crate) const NO_MEMORY: &str =
    "hypercube: there was not enough memory, and nothing was written. Twelve units take about \
120 MB for each plan that is solved at a time; fewer workers and fewer units take less.\n";

/// A text that is said as it stands.
pub(crate) fn constant(alloc: Global, text: &str) -> Result<String, AllocError> {
    String::from_str(alloc, text)
}
