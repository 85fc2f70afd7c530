ghost use Rattle.std.specs.Prelude.{◌≡◌, ◌<◌, ◌≤◌, ◌⊎◌, true, [], length, map, IfOk, IfErr, OnOk, Some, None, slice_get, slice_index_or, string_bytes, filter_map, All};
ghost use Rattle.hyper_model.specs.Measures as hyper_measures;
ghost use Rattle.hyper_model.specs.Measures.{is_of_region};
ghost use Rattle.hyper_model.specs.Plans.{IsBetween};
ghost use Rattle.outer_world.specs.declared.shelf.TheConstants.{MOST_SHELF_NAME_BYTES};
ghost use Rattle.plan_text.specs.Steps.{Gives};
ghost use Rattle.plan_compare.specs.Studies as spec;
ghost use Rattle.plan_compare.specs.Studies.{study_of, unknown_refusal};
ghost use Rattle.plan_compare.specs.declared.study.TheConstants.{LEAST_PLANS, MOST_COMPARED_MEASURES, MOST_PLANS};

use crate::StudyRefusal;
use crate::document::{StudyTexts, is_within, read_texts};
use hyper_model::{Measure, measure_named};
use std::alloc::Global;
use std::marker::Model;

/// The most bytes that the text of a study has.
pub const MOST_STUDY_BYTES: usize = 4_194_304;

/// The fewest plans that are compared.
pub const LEAST_PLANS: usize = 2;

/// The most plans that are compared.
pub const MOST_PLANS: usize = 16;

/// The most measures by which plans are compared.
pub const MOST_COMPARED_MEASURES: usize = 16;

/// Plans, and the measures of the whole region by which they are to be compared.
#[derive(Debug, Drop)]
pub struct Study {
    names: Vec<String>,
    measures: Vec<Measure>,
}

impl Model for Study {
    ghost use Rattle.std.specs.Prelude.{map, string_bytes};
    ghost use Rattle.plan_compare.specs.Studies.{StudyParts, IsStudy};

    ghost Value = { StudyParts };

    ghost view = { λ a.
        record { plans = map string_bytes a.names.items; measures = a.measures.items } };

    ghost invariant = { λ a.
        IsStudy (record { plans = map string_bytes a.names.items; measures = a.measures.items }) };
}

impl Study {
    /// How many plans there are, 2 to 16.
    pub fn plans(&self) -> usize
        ensures number { result ≡ length self.now.plans }
        ensures least { LEAST_PLANS ≤ result }
        ensures most { result ≤ MOST_PLANS }
    {
        self.names.len()
    }

    /// The name of the plan at this place, counted from 0, of 1 to 255 bytes.
    pub fn plan_name(&self, i: usize) -> &str
        requires { i < length self.now.plans }
        ensures name { result.now ≡ slice_index_or self.now.plans i [] }
        ensures length { IsBetween 1 MOST_SHELF_NAME_BYTES (length result.now) }
    {
        self.names[i].as_str()
    }

    /// How many measures there are, 1 to 16. All are of the whole region.
    pub fn measures(&self) -> usize
        ensures number { result ≡ length self.now.measures }
        ensures least { 1 ≤ result }
        ensures most { result ≤ MOST_COMPARED_MEASURES }
        ensures region { All (λ m. is_of_region m ≡ true) self.now.measures }
    {
        self.measures.len()
    }

    /// The measure at this place, counted from 0. It is one of the whole region.
    pub fn measure(&self, i: usize) -> Measure
        requires { i < length self.now.measures }
        ensures measure { slice_get self.now.measures i ≡ Some result }
        ensures region { is_of_region result ≡ true }
    {
        self.measures[i]
    }
}

/// The study of a text, which is a TOML document with two arrays of strings: the names of 2 to 16 plans under `plans`,
/// and the words of 1 to 16 measures under `measures`.
///
/// A text that is too long is refused first, then a document of another form, then the number of plans, and last the
/// first word that names no measure.
pub fn read_study(alloc: Global, bytes: &[u8]) -> Result<Study, StudyRefusal>
    ensures { Gives StudyRefusal.NoMemory (λ study. study) result (study_of bytes.now) }
{
    if bytes.len() > MOST_STUDY_BYTES {
        return Err(StudyRefusal::StudyTooLong(bytes.len() as u64));
    }
    match read_texts(alloc, bytes) {
        Ok(texts) => study_of_texts(alloc, texts),
        Err(refusal) => Err(refusal),
    }
}

/// The study of the texts in a document.
fn study_of_texts(alloc: Global, texts: StudyTexts) -> Result<Study, StudyRefusal>
    ensures { Gives StudyRefusal.NoMemory (λ study. study) result (spec.study_of_texts texts) }
{
    let count = texts.names.len();
    if !is_within(LEAST_PLANS, MOST_PLANS, count) {
        return Err(StudyRefusal::PlanCount(count as u64));
    }
    let measures = measures_named(alloc, &texts.words)?;
    Ok(Study {
        names: texts.names,
        measures,
    })
}

/// The measures that have these words, unless a word names none.
fn measures_named(alloc: Global, words: &[String]) -> Result<Vec<Measure>, StudyRefusal>
    ensures known { OnOk result (unknown_refusal (map string_bytes words.now) ≡ None) }
    ensures measures { IfOk result (λ measures.
        measures.items ≡ filter_map hyper_measures.measure_named (map string_bytes words.now)) }
    ensures number { IfOk result (λ measures. length measures.items ≡ length words.now) }
    ensures region { IfOk result (λ measures. All (λ m. is_of_region m ≡ true) measures.items) }
    ensures unknown { IfErr result (λ refusal.
        (refusal ≡ StudyRefusal.NoMemory) ⊎ (unknown_refusal (map string_bytes words.now) ≡ Some refusal)) }
{
    let mut measures = Vec::new(alloc);
    for (place, word) in words.iter().enumerate() {
        let Some(measure) = measure_named(word.as_str()) else {
            return Err(StudyRefusal::UnknownMeasure(place as u64 + 1));
        };
        measures.extend_from_slice(&[measure])?;
    }
    Ok(measures)
}
