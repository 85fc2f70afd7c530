use crate::forms::form_of;
use crate::lines::Lines;
use crate::near::nearest_word;
use crate::quoted::Quoted;
use crate::rows::Rows;
use crate::unsaid::Unsaid;
use std::alloc::{AllocError, Global};
use toml::value::Array;
use toml::{Table, Value};

/// The words of the measures by which plans are compared.
const STUDY_MEASURES: &[&str] = &["loss", "delay", "queue", "wait", "interdistrict", "travel"];

/// How a study is written.
const PATTERN: &str =
    "A study has two lists of texts and nothing else: plans = [\"a.csv\", \"b.csv\"] and measures = [\"loss\", \"travel\"].";

/// A text that is no study.
pub(crate) fn no_study(alloc: Global, text: &[u8]) -> Result<String, Unsaid> {
    if is_plan(alloc, text)? {
        return Ok(format!(in alloc;
            ": this is a plan, and compare asks for a study. {PATTERN} Write solve for a plan."
        )?);
    }
    match toml::table_from_slice(alloc, text) {
        Ok(table) => not_in_form(alloc, &table),
        Err(error) if error.is_memory() => Err(Unsaid::NoMemory),
        Err(error) => {
            let place = error.span().map_or(0, |span| span.start as u64);
            let line = Lines::of(text).go_to(place);
            Ok(format!(in alloc; ", line {line}: this is no TOML. {PATTERN}")?)
        }
    }
}

/// Whether a text begins as a plan does.
fn is_plan(alloc: Global, text: &[u8]) -> Result<bool, AllocError> {
    let rows = Rows::of(alloc, text)?;
    Ok(
        rows.items()
            .first()
            .is_some_and(|item| form_of(item.row().field(0)).is_some()),
    )
}

/// What a document lacks of a study's form.
fn not_in_form(alloc: Global, table: &Table) -> Result<String, Unsaid> {
    for (key, _) in table {
        if key.as_str() != "plans" && key.as_str() != "measures" {
            let key = Quoted(key.as_bytes());
            return Ok(format!(in alloc; ": {key} is no part of a study. {PATTERN}")?);
        }
    }
    for key in ["plans", "measures"] {
        if let Some(fault) = list_fault(alloc, table, key)? {
            return Ok(fault);
        }
    }
    Ok(format!(in alloc;
        ": a study has 1 to 16 measures, and its plans have names of 1 to 255 bytes. {PATTERN}"
    )?)
}

/// What is wrong with the list of this key.
fn list_fault(alloc: Global, table: &Table, key: &str) -> Result<Option<String>, AllocError> {
    let Some(value) = table.get(key) else {
        return Ok(Some(format!(in alloc; ": the list {key} is missing. {PATTERN}")?))
    };
    let Some(items) = value.as_array() else {
        return Ok(Some(format!(in alloc;
            ": {key} is no list: it stands in square brackets. {PATTERN}"
        )?))
    };
    match items.iter().position(|item| item.as_str().is_none()) {
        Some(place) => {
            let number = place.saturating_add(1);
            Ok(Some(format!(in alloc;
                ": item {number} of {key} is no text: it stands in double quotes. {PATTERN}"
            )?))
        }
        None => Ok(None),
    }
}

/// A measure that is not known.
pub(crate) fn unknown_measure(alloc: Global, text: &[u8], number: u64) -> Result<String, Unsaid> {
    let table = match toml::table_from_slice(alloc, text) {
        Ok(table) => table,
        Err(_) => return Err(Unsaid::Unknown),
    };
    let items = table
        .get("measures")
        .and_then(Value::as_array)
        .ok_or(Unsaid::Unknown)?;
    let word = word_at(items, number)?;
    let shown = Quoted(word.as_bytes());
    let near = match nearest_word(word.as_bytes(), STUDY_MEASURES) {
        Some(near) => format!(in alloc; " Write {near}.")?,
        None => String::new(alloc),
    };
    Ok(format!(in alloc;
        ": measure {number} of the study, {shown}, is none of loss, delay, queue, wait, interdistrict and \
travel.{near}"
    )?)
}

fn word_at(items: &Array, number: u64) -> Result<&str, Unsaid> {
    let place = number.saturating_sub(1).min(items.len() as u64) as usize;
    items
        .get(place)
        .and_then(Value::as_str)
        .ok_or(Unsaid::Unknown)
}

/// Too few or too many plans.
pub(crate) fn plan_count(alloc: Global, count: u64) -> Result<String, Unsaid> {
    let advice = match count {
        0 => "Name two plans or more.",
        1 => "Name another one, or write solve for one plan.",
        _ => "Make several studies that have one plan in common.",
    };
    Ok(format!(in alloc; ": the study names {count} plans, and may name 2 to 16. {advice}")?)
}
