ghost use Rattle.std.specs.Prelude.{◌≡◌, ◌+◌, ◌*◌, ◌/◌, ◌%◌, ◌^◌, ◌<◌, ◌≤◌, nat_lt, if◌then◌else◌, length};
ghost use Rattle.fixed_interval.specs.Ends.{scaled_ends};
ghost use Rattle.fixed_interval.specs.WeightList.{ends_at};
ghost use Rattle.busy_words.specs.Parts.{weighed_ends};
ghost use Rattle.crew_stations.specs.declared.TheConstants.{MOST_CREWS, MOST_STATES};
ghost use Rattle.crew_stations.specs.Stations.{stations, stride_of};
ghost use Rattle.fleet_measures.specs.FleetEnclosures as spec;
ghost use Rattle.fleet_measures.specs.FleetMeasures.{IsOrderedFleetEnds};

use crate::{FleetEnds, FleetMeasure};
use crew_stations::{Fleet, law_fleet};
use dispatch_fractions::found_of;
use fixed_interval::{Iv, Wide};
use hyper_model::Measure;
use station_flows::FleetWeights;

/// The share of time that each crew of station k is busy, in millionths.
pub(crate) fn crew_workload(fleet: &Fleet, weights: &FleetWeights, k: u8) -> FleetEnds
    requires { k < stations fleet.now }
    ensures exact { result ≡ spec.crew_workload_of fleet.now weights.now.items k }
    ensures ordered { IsOrderedFleetEnds result }
{
    let (busy, free) = crew_sums(fleet, weights, usize::from(k));
    FleetEnds {
        measure: FleetMeasure::Of(Measure::Workload(k)),
        found: found_of(busy.share_of(free, 1_000_000)),
    }
}

/// The sum of the weights, each times the station's busy crews, and each times its free ones.
fn crew_sums(fleet: &Fleet, weights: &FleetWeights, k: usize) -> (Wide, Wide)
    requires { k < stations fleet.now }
    ensures busy { result.0 ≡ weighed_ends (length weights.now.items) (spec.busy_at_place fleet.now k)
        (ends_at weights.now.items) }
    ensures free { result.1 ≡ weighed_ends (length weights.now.items) (spec.free_at_place fleet.now k)
        (ends_at weights.now.items) }
    ensures most { result.0.hi ≤ (MOST_STATES + 1) * (MOST_CREWS * 2 ^ 52) }
    ensures most_free { result.1.hi ≤ (MOST_STATES + 1) * (MOST_CREWS * 2 ^ 52) }
{
    let crews = fleet.crews(k);
    let stride = stride(fleet, k);
    let states = fleet.states();
    let mut busy = Wide::new(0, 0);
    let mut free = Wide::new(0, 0);
    for place in 0..weights.len() {
        let weight = weights.get(place);
        let at_work = busy_at_place(place, states, stride, crews);
        busy = busy.plus(times(weight, at_work));
        free = free.plus(times(weight, crews - at_work));
    }
    (busy, free)
}

/// A weight, so many times.
fn times(weight: Iv, crews: u32) -> Wide
    requires weight { weight.hi ≤ 2 ^ 52 }
    requires crews { crews ≤ MOST_CREWS }
    ensures ends { result ≡ scaled_ends crews weight }
    ensures most { result.hi ≤ MOST_CREWS * 2 ^ 52 }
{
    weight.wide().scaled(u64::from(crews))
}

/// How many crews of a station are busy at this place of the weights: while a call waits all are.
fn busy_at_place(place: usize, states: usize, stride: usize, crews: u32) -> u32
    requires stride { 1 ≤ stride }
    requires crews { crews ≤ MOST_CREWS }
    ensures busy { result ≡ (if nat_lt place states then place / stride % (crews + 1) else crews) }
    ensures most { result ≤ crews }
{
    if place < states {
        (place / stride % (crews as usize + 1)) as u32
    } else {
        crews
    }
}

/// What one busy crew more at station k adds to the number of a state.
fn stride(fleet: &Fleet, k: usize) -> usize
    requires { k < stations fleet.now }
    ensures stride { result ≡ stride_of fleet.now k }
    ensures least { 1 ≤ result }
{
    law_fleet(fleet);
    let mut stride = 1;
    for m in 0..k {
        stride *= fleet.crews(m) as usize + 1;
    }
    stride
}
