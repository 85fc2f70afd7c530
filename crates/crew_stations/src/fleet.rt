ghost use Rattle.crew_stations.specs.Fleets.{IsFleet};

use hyper_model::{Bounded, MOST_UNITS, PlanParts, Unit};
use std::marker::Model;

/// How many crews each station has, at most twelve numbers.
pub type Crews = Bounded<u32, MOST_UNITS>;

/// A fleet whose crews stand at stations: at most [`MOST_CREWS`](crate::MOST_CREWS) crews at 1 to 12 stations, and at most
/// [`MOST_STATES`](crate::MOST_STATES) states. A state is how many crews of each station are busy.
///
/// Contracts see the plan of its stations: parts of a plan with one unit for each station, and the crews of each.
#[derive(Debug, Drop)]
pub struct Fleet {
    parts: PlanParts,
    crews: Crews,
}

impl Model for Fleet {
    ghost use Rattle.crew_stations.specs.Fleets.{IsFleet};
    ghost use Rattle.crew_stations.specs.Stations.{StationPlan};

    ghost Value = { StationPlan };

    ghost view = { λ a. record { parts = a.parts; crews = a.crews } };

    ghost invariant = { λ a. IsFleet (record { parts = a.parts; crews = a.crews }) };
}

/// The numbers of the fleet are within their limits.
pub fn law_fleet(fleet: &Fleet)
    ensures { IsFleet fleet.now }
{
    let _parts = fleet.parts();
}

impl Fleet {
    ghost use Rattle.std.specs.Prelude.{◌≡◌, ◌*◌, ◌<◌, ◌≤◌};
    ghost use Rattle.hyper_model.specs.declared.TheConstants.{MOST_UNITS, MOST_RATE};
    ghost use Rattle.hyper_model.specs.Plans.{all_calls, unit_at};
    ghost use Rattle.crew_stations.specs.declared.TheConstants.{MOST_CREWS, MOST_STATES};
    ghost use Rattle.crew_stations.specs.Fleets.{IsFleet};
    ghost use Rattle.crew_stations.specs.Stations.{StationPlan, stations, crews_at, fleet_service, states};

    /// The fleet of these stations and crews.
    pub fn of_accepted(parts: PlanParts, crews: Crews) -> Fleet
        requires { IsFleet (record { parts = parts; crews = crews }) }
        ensures { result ≡ record { parts = parts; crews = crews } }
    {
        Fleet { parts, crews }
    }

    /// The stations, as the units of a plan.
    pub fn parts(&self) -> &PlanParts
        ensures parts { result.now ≡ self.now.parts }
        ensures fleet { IsFleet self.now }
    {
        &self.parts
    }

    /// How many stations there are, 1 to 12.
    pub fn stations(&self) -> usize
        ensures stations { result ≡ stations self.now }
        ensures least { 1 ≤ result }
        ensures most { result ≤ MOST_UNITS }
    {
        self.parts.units.len()
    }

    /// Station k, counted from 0: its name, and the rate at which one of its crews serves.
    pub fn station(&self, k: usize) -> &Unit
        requires { k < stations self.now }
        ensures station { result.now ≡ unit_at self.now.parts k }
        ensures rate { (1 ≤ result.now.rate) × (result.now.rate ≤ MOST_RATE) }
    {
        self.parts.units.get(k)
    }

    /// How many crews station k has, counted from 0.
    pub fn crews(&self, k: usize) -> u32
        requires { k < stations self.now }
        ensures crews { result ≡ crews_at self.now k }
        ensures least { 1 ≤ result }
        ensures most { result ≤ MOST_CREWS }
    {
        *self.crews.get(k)
    }

    /// How many states there are: the product, over the stations, of their crews and one.
    pub fn states(&self) -> usize
        ensures states { result ≡ states self.now }
        ensures least { 1 ≤ result }
        ensures most { result ≤ MOST_STATES }
    {
        law_fleet(self);
        let mut states = 1;
        for k in 0..self.stations() {
            states *= self.crews(k) as usize + 1;
        }
        states
    }

    /// The rate of all calls per period, 1 to 1,000,000.
    pub fn calls(&self) -> u32
        ensures calls { result ≡ all_calls self.now.parts }
        ensures least { 1 ≤ result }
        ensures most { result ≤ MOST_RATE }
    {
        self.parts.atoms.calls() as u32
    }

    /// The rate at which all crews together serve, per period, 1 to 1,000,000.
    pub fn service(&self) -> u32
        ensures service { result ≡ fleet_service self.now }
        ensures least { 1 ≤ result }
        ensures most { result ≤ MOST_RATE }
    {
        law_fleet(self);
        let mut service = 0;
        for k in 0..self.stations() {
            service += self.crews(k) * self.station(k).rate;
        }
        service
    }
}
