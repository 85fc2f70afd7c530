ghost use Rattle.std.specs.Prelude.{◌≡◌, [], ◌∷◌, ◌++◌, map, option_and_then, IfOk, MatchResult, Some, string_bytes};
ghost use Rattle.std.specs.List.{list_all};
ghost use Rattle.toml.specs.Data.{as_array};
ghost use Rattle.toml.specs.View.{array_view, table_view, view};
ghost use Rattle.plan_text.specs.Fields as fields;
ghost use Rattle.plan_compare.specs.Documents as spec;
ghost use Rattle.plan_compare.specs.Documents.{has_name_length, texts_in, texts_of};
ghost use Rattle.plan_compare.specs.Refusals.{IsRefused};

use crate::{MOST_COMPARED_MEASURES, StudyRefusal};
use outer_world::MOST_SHELF_NAME_BYTES;
use std::alloc::{AllocError, Global};
use std::marker::Model;
use toml::value::Array;
use toml::{Table, Value};

/// The texts that a study's document has: the names of its plans, of 1 to 255 bytes, and the words of 1 to 16 measures.
#[derive(Drop)]
pub(crate) struct StudyTexts {
    pub(crate) names: Vec<String>,
    pub(crate) words: Vec<String>,
}

impl Model for StudyTexts {
    ghost use Rattle.std.specs.Prelude.{◌≡◌, true, map, string_bytes};
    ghost use Rattle.plan_compare.specs.Documents as spec;
    ghost use Rattle.plan_compare.specs.Documents.{is_in_form};

    ghost Value = { spec.StudyTexts };

    ghost view = { λ a.
        record { names = map string_bytes a.names.items; words = map string_bytes a.words.items } };

    ghost invariant = { λ a.
        is_in_form
        (record { names = map string_bytes a.names.items; words = map string_bytes a.words.items })
        ≡ true };
}

/// The texts in these bytes. There are none if the bytes are no TOML document of a study's form.
pub(crate) fn read_texts(alloc: Global, bytes: &[u8]) -> Result<StudyTexts, StudyRefusal>
    ensures { MatchResult result (λ texts. texts_in bytes.now ≡ Some texts)
        (λ refusal. IsRefused (texts_in bytes.now) refusal) }
{
    match toml::table_from_slice(alloc, bytes) {
        Ok(table) => table_texts(alloc, &table),
        Err(error) if error.is_memory() => Err(StudyRefusal::NoMemory),
        Err(_) => Err(StudyRefusal::BadStudy),
    }
}

/// The texts in a table with two keys.
fn table_texts(alloc: Global, table: &Table) -> Result<StudyTexts, StudyRefusal>
    ensures { MatchResult result (λ texts. texts_of (table_view table.now) ≡ Some texts)
        (λ refusal. IsRefused (texts_of (table_view table.now)) refusal) }
{
    if table.len() != 2 {
        return Err(StudyRefusal::BadStudy);
    }
    let names = strings_at(alloc, table, "plans")?;
    let words = strings_at(alloc, table, "measures")?;
    if !is_in_form(&names, &words) {
        return Err(StudyRefusal::BadStudy);
    }
    Ok(StudyTexts { names, words })
}

/// Whether names and words are as many and as long as they may be.
fn is_in_form(names: &[String], words: &[String]) -> bool
    ensures { result
        ≡ spec.is_in_form (record { names = map string_bytes names.now; words = map string_bytes words.now }) }
{
    have_name_length(names) && is_within(1, MOST_COMPARED_MEASURES, words.len())
}

fn have_name_length(names: &[String]) -> bool
    ensures { result ≡ list_all (λ name. has_name_length (string_bytes name)) names.now }
{
    names.iter().all(|name| is_within(1, MOST_SHELF_NAME_BYTES, name.as_bytes().len()))
}

/// Whether a number lies between these two, or is one of them.
pub(crate) fn is_within(least: usize, most: usize, number: usize) -> bool
    ensures { result ≡ fields.is_within least most number }
{
    least <= number && number <= most
}

/// The strings in the array at a key. There are none if the key has no array, or anything else stands in it.
fn strings_at(alloc: Global, table: &Table, key: &str) -> Result<Vec<String>, StudyRefusal>
    ensures { MatchResult result
        (λ texts. spec.strings_at key.now (table_view table.now) ≡ Some (map string_bytes texts.items))
        (λ refusal. IsRefused (spec.strings_at key.now (table_view table.now)) refusal) }
{
    match table.get(key) {
        Some(value) => strings_in(alloc, value),
        None => Err(StudyRefusal::BadStudy),
    }
}

fn strings_in(alloc: Global, value: &Value) -> Result<Vec<String>, StudyRefusal>
    ensures { MatchResult result
        (λ texts. option_and_then spec.strings_in (as_array (view value.now)) ≡ Some (map string_bytes texts.items))
        (λ refusal. IsRefused (option_and_then spec.strings_in (as_array (view value.now))) refusal) }
{
    match value.as_array() {
        Some(items) => all_strings(alloc, items),
        None => Err(StudyRefusal::BadStudy),
    }
}

/// The items as strings, unless one is none.
fn all_strings(alloc: Global, items: &Array) -> Result<Vec<String>, StudyRefusal>
    ensures { MatchResult result
        (λ texts. spec.strings_in (array_view items.now) ≡ Some (map string_bytes texts.items))
        (λ refusal. IsRefused (spec.strings_in (array_view items.now)) refusal) }
{
    let mut texts = Vec::new(alloc);
    for item in items {
        let Some(text) = item.as_str() else {
            return Err(StudyRefusal::BadStudy);
        };
        push_text(alloc, &mut texts, text)?;
    }
    Ok(texts)
}

fn push_text(alloc: Global, texts: &mut Vec<String>, text: &str) -> Result<(), AllocError>
    ensures { IfOk result (λ _.
        map string_bytes texts.new.items ≡ map string_bytes texts.old.items ++ text.now ∷ []) }
{
    texts.push(String::from_str(alloc, text)?)?;
    Ok(())
}
