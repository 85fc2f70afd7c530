use crate::digits::{fill_digits, strides_of};
use crew_stations::{Fleet, law_fleet};
use std::alloc::{AllocError, Global};
use std::marker::Model;

/// The states of a fleet by their numbers, whose digits are the busy crews of each station.
///
/// Contracts see the plan of the stations.
#[derive(Drop)]
pub(crate) struct StateNumbers<'a> {
    fleet: &'a Fleet,
    strides: Vec<usize>,
    digits: Vec<u8>,
}

impl<'a> Model for StateNumbers<'a> {
    ghost use Rattle.crew_stations.specs.Stations.{StationPlan};
    ghost use Rattle.station_flows.specs.StateRates.{IsNumbered};

    ghost Value = { StationPlan };

    ghost view = { λ a. a.fleet.now };

    ghost invariant = { λ a. IsNumbered a.fleet.now a.strides.items a.digits.items };
}

impl<'a> StateNumbers<'a> {
    ghost use Rattle.std.specs.Prelude.{◌≡◌, ◌==◌, ℕ, ◌<◌, ◌≤◌, Bool, false, IfOk, IfSome, IsNone};
    ghost use Rattle.hyper_model.specs.declared.TheConstants.{MOST_UNITS, MOST_RATE};
    ghost use Rattle.hyper_model.specs.Plans.{atoms, calls_of};
    ghost use Rattle.crew_stations.specs.declared.TheConstants.{MOST_CREWS, MOST_STATES};
    ghost use Rattle.crew_stations.specs.Fleets.{IsFleet};
    ghost use Rattle.crew_stations.specs.Stations.{stations, crews_at, crew_service, stride_of, states, busy_in, has_room as has_room_in, answers};

    /// The numbers of this fleet's states. All memory is taken here: 1 byte for each station and each state.
    pub(crate) fn of(alloc: Global, fleet: &'a Fleet) -> Result<StateNumbers<'a>, AllocError>
        ensures { IfOk result (λ numbers. numbers ≡ fleet.now) }
    {
        let strides = strides_of(alloc, fleet)?;
        let mut digits = vec![in alloc; 0; fleet.states() * fleet.stations()]?;
        fill_digits(fleet, &strides, &mut digits);
        Ok(StateNumbers {
            fleet,
            strides,
            digits,
        })
    }

    /// The fleet, whose numbers are within their limits.
    pub(crate) fn fleet(&self) -> &Fleet
        ensures fleet { result.now ≡ self.now }
        ensures within { IsFleet self.now }
    {
        law_fleet(self.fleet);
        self.fleet
    }

    /// How many states there are.
    pub(crate) fn size(&self) -> usize
        ensures states { result ≡ states self.now }
        ensures least { 1 ≤ result }
        ensures most { result ≤ MOST_STATES }
    {
        self.fleet.states()
    }

    /// How many stations there are.
    pub(crate) fn stations(&self) -> usize
        ensures stations { result ≡ stations self.now }
        ensures least { 1 ≤ result }
        ensures most { result ≤ MOST_UNITS }
    {
        self.fleet.stations()
    }

    /// How many crews the station has.
    pub(crate) fn crews(&self, station: usize) -> usize
        requires { station < stations self.now }
        ensures crews { result ≡ crews_at self.now station }
        ensures most { result ≤ MOST_CREWS }
    {
        self.fleet.crews(station) as usize
    }

    /// The rate at which one crew of the station serves.
    pub(crate) fn rate(&self, station: usize) -> u32
        requires { station < stations self.now }
        ensures rate { result ≡ crew_service self.now station }
        ensures most { result ≤ MOST_RATE }
    {
        self.fleet.station(station).rate
    }

    /// What one busy crew more at the station adds to the number of a state.
    pub(crate) fn stride(&self, station: usize) -> usize
        requires { station < stations self.now }
        ensures stride { result ≡ stride_of self.now station }
        ensures least { 1 ≤ result }
        ensures most { result ≤ MOST_STATES }
    {
        law_fleet(self.fleet);
        self.strides[station]
    }

    /// How many crews of the station are busy in the state.
    pub(crate) fn busy(&self, state: usize, station: usize) -> usize
        requires state { state < states self.now }
        requires station { station < stations self.now }
        ensures busy { result ≡ busy_in self.now state station }
        ensures most { result ≤ crews_at self.now station }
    {
        law_fleet(self.fleet);
        usize::from(self.digits[state * self.stations() + station])
    }

    /// Whether a crew of the station is free in the state.
    pub(crate) fn has_room(&self, state: usize, station: usize) -> bool
        requires state { state < states self.now }
        requires station { station < stations self.now }
        ensures { result ≡ has_room_in self.now state station }
    {
        self.busy(state, station) < self.crews(station)
    }

    /// How many crews are busy in the state.
    pub(crate) fn level(&self, state: usize) -> usize
        requires { state < states self.now }
        ensures { result ≤ MOST_CREWS }
    {
        let _fleet = self.fleet();
        let mut level = 0;
        for station in 0..self.stations() {
            level += self.busy(state, station);
        }
        level
    }

    /// The station that a call of the atom goes to in the state: the first of its list with a free crew.
    pub(crate) fn first_with_room(&self, state: usize, atom: usize) -> Option<usize>
        requires state { state < states self.now }
        requires atom { atom < atoms self.now.parts }
        ensures some { IfSome result (λ first. (first < stations self.now)
            × ((k : ℕ) → answers self.now atom state k ≡ (first == k))) }
        ensures none { IsNone result → (k : ℕ) → answers self.now atom state k ≡ false }
    {
        let lists = &self.fleet().parts().lists;
        for place in 0..lists.units() {
            let station = usize::from(lists.unit(atom, place));
            if self.has_room(state, station) {
                return Some(station);
            }
        }
        None
    }
}
