use crate::at::At;
use crate::forms::{Field, Form, KINDS, form_of};
use crate::grouped::Grouped;
use crate::near::nearest_word;
use crate::number_advice::number_advice;
use crate::quoted::Quoted;
use crate::rows::Rows;
use crate::unsaid::Unsaid;
use plan_text::Row;
use std::alloc::{AllocError, Global};

/// The most bytes of a name.
const MOST_NAME_BYTES: usize = 32;

/// A field that is not UTF-8.
pub(crate) fn not_utf8(alloc: Global, rows: &Rows, record: u64) -> Result<String, Unsaid> {
    let found = rows.record(record)?;
    let at = found.at();
    let row = found.row();
    let place = odd_field(&row);
    let number = place.saturating_add(1);
    let field = Quoted(row.field(place));
    Ok(format!(in alloc;
        ", {at}, field {number}: {field} is not UTF-8. If the file is in Windows-1252 or Latin-1, \
save it as UTF-8."
    )?)
}

/// The place of the first field that is not UTF-8.
fn odd_field(row: &Row<'_>) -> usize {
    for place in 0..row.len() {
        if str::from_utf8(row.field(place)).is_err() {
            return place;
        }
    }
    0
}

/// A record of no known kind.
pub(crate) fn unknown_kind(
    alloc: Global,
    rows: &Rows,
    record: u64,
    is_fleet: bool,
) -> Result<String, Unsaid> {
    let found = rows.record(record)?;
    let at = found.at();
    let row = found.row();
    let word = row.field(0);
    let kind = Quoted(word);
    if let Some(advice) = added_advice(word, is_fleet).or(separator_advice(word)) {
        return Ok(format!(in alloc; ", {at}: {kind} is no kind of record. {advice}")?);
    }
    if let Some(near) = nearest_word(word, KINDS) {
        return Ok(format!(in alloc;
            ", {at}: {kind} is no kind of record. Write {near}, in small letters."
        )?);
    }
    let heading = heading_advice(rows, at);
    let added = if is_fleet { "crews" } else { "group" };
    Ok(format!(in alloc;
        ", {at}: {kind} is no kind of record. {heading}A record begins with version, line, rule, period, unit, \
atom, travel, at, prefer, {added} or note."
    )?)
}

/// What helps if a kind is known only after a version, in the texts of other commands or of this one.
fn added_advice(word: &[u8], is_fleet: bool) -> Option<&'static str> {
    match (word, is_fleet) {
        (b"group", false) => Some("Groups are known only after a record version,2: put it first."),
        (b"group", true) => Some("A fleet has no groups: list its stations by prefer."),
        (b"crews", false) => Some("Crews are known only to the command fleet."),
        (b"crews", true) => Some("Crews are known only after a record version,3: put it first."),
        _ => None,
    }
}

/// What helps if a kind has more than a kind in it.
fn separator_advice(word: &[u8]) -> Option<&'static str> {
    if word.contains(&0) {
        Some("The file seems to be in UTF-16: save it as UTF-8.")
    } else if word.contains(&b';') {
        Some("Semicolons do not separate fields: save the file with commas.")
    } else if word.contains(&b'\t') {
        Some("Tabs do not separate fields: save the file with commas.")
    } else if word.contains(&b',') || word.contains(&b'\n') {
        Some("A double quote holds several fields together: take it out, or close it.")
    } else {
        None
    }
}

/// What helps first if a word is like no kind: in the first record it may be a heading.
fn heading_advice(rows: &Rows, at: At) -> &'static str {
    let is_first = rows.items().first().is_some_and(|item| item.at() == at);
    if is_first {
        "If it is a row of headings, take it out, or write note, in front of it. "
    } else {
        ""
    }
}

/// A record with a wrong number of fields.
pub(crate) fn field_count(alloc: Global, rows: &Rows, record: u64) -> Result<String, Unsaid> {
    let found = rows.record(record)?;
    let at = found.at();
    let row = found.row();
    let form = form_of(row.field(0)).ok_or(Unsaid::Unknown)?;
    let kind = form.kind;
    let pattern = form.pattern;
    let count = row.len();
    let advice = count_advice(form, count);
    Ok(format!(in alloc;
        ", {at}: a record of this kind is written {pattern}, and this one has {count} fields, {kind} \
included. {advice}"
    )?)
}

/// What helps if a record has so many fields.
fn count_advice(form: &Form, count: usize) -> &'static str {
    if count <= form.fields.len() {
        "Write what is missing. Semicolons and tabs do not separate fields."
    } else if form.kind == "prefer" || form.kind == "group" {
        "A plan has at most twelve units."
    } else {
        "Take out what is too much. A comma in a number or in a name separates fields."
    }
}

/// A field that is no number in its range.
pub(crate) fn bad_number(
    alloc: Global,
    rows: &Rows,
    record: u64,
    number: u64,
) -> Result<String, Unsaid> {
    let found = rows.record(record)?;
    let at = found.at();
    let row = found.row();
    let form = form_of(row.field(0)).ok_or(Unsaid::Unknown)?;
    let Some(Field::Number(quantity)) = form.field(number) else {
        return Err(Unsaid::Unknown)
    };
    let bytes = row.field(number.saturating_sub(1).min(row.len() as u64) as usize);
    let field = Quoted(bytes);
    let word = quantity.word;
    let least = Grouped(quantity.least);
    let most = Grouped(quantity.most);
    let advice = number_advice(bytes, quantity);
    Ok(format!(in alloc;
        ", {at}, field {number}: the {word} {field} is no whole number from {least} to {most}. {advice}"
    )?)
}

/// A field that is no name, or none of the words that may stand there.
pub(crate) fn bad_name(
    alloc: Global,
    rows: &Rows,
    record: u64,
    number: u64,
) -> Result<String, Unsaid> {
    let found = rows.record(record)?;
    let at = found.at();
    let row = found.row();
    let form = form_of(row.field(0)).ok_or(Unsaid::Unknown)?;
    let bytes = row.field(number.saturating_sub(1).min(row.len() as u64) as usize);
    let field = Quoted(bytes);
    match form.field(number) {
        Some(Field::Word(words)) => {
            let advice = word_advice(alloc, form, bytes, words)?;
            Ok(format!(in alloc;
                ", {at}, field {number}: {field} stands for no {kind}. {advice}",
                kind = form.kind
            )?)
        }
        Some(Field::Name(thing)) => {
            let advice = name_advice(bytes);
            Ok(format!(in alloc;
                ", {at}, field {number}: {field} is no name of {article} {thing}. {advice}",
                article = article(thing)
            )?)
        }
        _ => Err(Unsaid::Unknown),
    }
}

fn article(thing: &str) -> &'static str {
    if thing == "atom" { "an" } else { "a" }
}

fn word_advice(
    alloc: Global,
    form: &Form,
    bytes: &[u8],
    words: &[&'static str],
) -> Result<String, AllocError> {
    let pattern = form.pattern;
    match nearest_word(bytes, words) {
        Some(near) => format!(in alloc; "Write {near}, in small letters."),
        None => format!(in alloc; "Write {pattern}."),
    }
}

/// What helps if a name is none.
fn name_advice(bytes: &[u8]) -> &'static str {
    if bytes.is_empty() {
        "Write a name there."
    } else if bytes.len() > MOST_NAME_BYTES {
        "A name has at most 32 bytes, and letters with accents have two or more: shorten it."
    } else if bytes.contains(&b',') {
        "A name has no commas: take it out."
    } else if bytes.contains(&b'"') {
        "A name has no double quotes: take it out."
    } else {
        "A name has no ends of lines and no other control codes: take them out."
    }
}

/// More records than a text may have.
pub(crate) fn too_many_records(alloc: Global, rows: &Rows, record: u64) -> Result<String, Unsaid> {
    let at = rows.record(record)?.at();
    Ok(format!(in alloc;
        ", {at}: a text has at most 50,000 records, and notes and rows of blanks count. Take out what \
is not needed."
    )?)
}
