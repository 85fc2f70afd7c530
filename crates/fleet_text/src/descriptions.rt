ghost use Rattle.std.specs.Prelude.{◌≡◌};
ghost use Rattle.fleet_measures.specs.FleetMeasures as measures;
ghost use Rattle.fleet_text.specs.FleetLabels as spec;

use fleet_measures::FleetMeasure;
use hyper_model::{Measure, Subject, scale};

/// The word by which a measure of a fleet is printed.
pub(crate) fn word(measure: FleetMeasure) -> &'static str
    ensures { result.now ≡ spec.fleet_word measure }
{
    match measure {
        FleetMeasure::Of(measure) => station_word(measure),
        FleetMeasure::Full(_) => "full",
    }
}

/// The word of a plan's measure, with stations for units.
fn station_word(measure: Measure) -> &'static str
    ensures { result.now ≡ spec.station_word measure }
{
    match measure {
        Measure::InterdistrictUnit(_) => "interdistrict-station",
        Measure::TravelUnit(_) => "travel-station",
        _ => measure.word(),
    }
}

/// What a measure of a fleet speaks of, with stations for units.
pub(crate) fn subject(measure: FleetMeasure) -> Subject
    ensures { result ≡ spec.fleet_subject measure }
{
    match measure {
        FleetMeasure::Of(measure) => measure.subject(),
        FleetMeasure::Full(k) => Subject::Unit(k),
    }
}

/// How many units of a measure's last printed digit are one: 1000 for times, else 1,000,000.
pub fn fleet_scale(measure: FleetMeasure) -> u32
    ensures { result ≡ measures.fleet_scale measure }
{
    match measure {
        FleetMeasure::Of(measure) => scale(measure),
        FleetMeasure::Full(_) => 1_000_000,
    }
}
