ghost use Rattle.std.specs.Prelude.{◌≡◌, true, false};
ghost use Rattle.hyper_model.specs.Measures as spec;

use crate::{Measure, Subject};

/// The measures of the whole region.
const REGION_MEASURES: [Measure; 6] = [
    Measure::Loss,
    Measure::Delay,
    Measure::Queue,
    Measure::Wait,
    Measure::Interdistrict,
    Measure::Travel,
];

/// What a measure is, in words.
#[derive(Clone, Copy)]
struct Description {
    word: &'static str,
    subject: Subject,
    is_time: bool,
}

impl Measure {
    /// Each measure, described once.
    fn description(self) -> Description
        ensures word { result.word.now ≡ spec.word_of self }
        ensures subject { result.subject ≡ spec.subject_of self }
        ensures is_time { result.is_time ≡ spec.is_time self }
    {
        match self {
            Measure::Loss => number("loss", Subject::Region),
            Measure::Delay => number("delay", Subject::Region),
            Measure::Queue => number("queue", Subject::Region),
            Measure::Wait => time("wait", Subject::Region),
            Measure::Workload(n) => number("workload", Subject::Unit(n)),
            Measure::Dispatch(n, j) => number("dispatch", Subject::UnitAndAtom(n, j)),
            Measure::Interdistrict => number("interdistrict", Subject::Region),
            Measure::InterdistrictUnit(n) => number("interdistrict-unit", Subject::Unit(n)),
            Measure::InterdistrictDistrict(n) => {
                number("interdistrict-district", Subject::District(n))
            }
            Measure::Travel => time("travel", Subject::Region),
            Measure::TravelAtom(j) => time("travel-atom", Subject::Atom(j)),
            Measure::TravelUnit(n) => time("travel-unit", Subject::Unit(n)),
            Measure::TravelDistrict(n) => time("travel-district", Subject::District(n)),
        }
    }

    /// The word by which the measure is printed and asked for.
    pub fn word(self) -> &'static str
        ensures { result.now ≡ spec.word_of self }
    {
        self.description().word
    }

    /// What the measure speaks of.
    pub fn subject(self) -> Subject
        ensures { result ≡ spec.subject_of self }
    {
        self.description().subject
    }

    /// Whether the measure is a time.
    pub fn is_time(self) -> bool
        ensures { result ≡ spec.is_time self }
    {
        self.description().is_time
    }
}

fn number(word: &'static str, subject: Subject) -> Description
    ensures word { result.word.now ≡ word.now }
    ensures subject { result.subject ≡ subject }
    ensures is_time { result.is_time ≡ false }
{
    Description {
        word,
        subject,
        is_time: false,
    }
}

fn time(word: &'static str, subject: Subject) -> Description
    ensures word { result.word.now ≡ word.now }
    ensures subject { result.subject ≡ subject }
    ensures is_time { result.is_time ≡ true }
{
    Description {
        word,
        subject,
        is_time: true,
    }
}

/// How many units of a measure's last printed digit are one: 1000 for times, else 1,000,000.
pub fn scale(measure: Measure) -> u32
    ensures { result ≡ spec.scale_of measure }
{
    if measure.is_time() { 1000 } else { 1_000_000 }
}

/// The measure of the whole region that has this word, if any.
#[tactic(auto, unfolding(crate::specs::Measures::measure_named))]
pub fn measure_named(word: &str) -> Option<Measure>
    ensures { result ≡ spec.measure_named word.now }
{
    REGION_MEASURES
        .iter()
        .copied()
        .find(|measure| word == measure.word())
}
