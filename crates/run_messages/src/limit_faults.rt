use crate::commands::{LIMIT, MOST_LIMITS};
use crate::quoted::Quoted;
use std::alloc::{AllocError, Global};

/// What is wrong with a word that is to be one limit in seconds, or several with commas between.
pub(crate) fn limits_fault(alloc: Global, word: &str) -> Result<Option<String>, AllocError> {
    let count = word.split(',').count();
    if count > MOST_LIMITS {
        return Ok(Some(format!(in alloc;
            "SECONDS has {count} numbers, and may have 16. Ask in several runs."
        )?));
    }
    let mut last = None;
    for text in word.split(',') {
        let Some(limit) = LIMIT.number_of(text) else {
            return Ok(Some(no_limit(alloc, word, text)?))
        };
        if last.is_some_and(|before| limit <= before) {
            return Ok(Some(not_more(alloc, text)?));
        }
        last = Some(limit);
    }
    Ok(None)
}

fn no_limit(alloc: Global, word: &str, text: &str) -> Result<String, AllocError> {
    let shown = Quoted(word.as_bytes());
    let wanted = LIMIT.wanted;
    if text.len() == word.len() {
        return format!(in alloc;
            "SECONDS is {shown}, and has to be {wanted}, or several of them with commas between."
        );
    }
    let part = Quoted(text.as_bytes());
    format!(in alloc; "SECONDS has {part} among its numbers, and each has to be {wanted}.")
}

fn not_more(alloc: Global, text: &str) -> Result<String, AllocError> {
    let shown = Quoted(text.as_bytes());
    format!(in alloc;
        "SECONDS has {shown} after a number that is not less. Write the least number first, and each once."
    )
}
