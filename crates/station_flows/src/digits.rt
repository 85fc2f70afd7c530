ghost use Rattle.std.specs.Prelude.{◌≡◌, ◌*◌, ◌/◌, ◌%◌, ◌<◌, IfOk, length};
ghost use Rattle.crew_stations.specs.Stations.{stations, states, busy_in};
ghost use Rattle.station_flows.specs.StateRates.{HasDigits, HasStrides};

use crew_stations::{Fleet, law_fleet};
use std::alloc::{AllocError, Global};

/// Of each station, what one busy crew more adds to the number of a state.
pub(crate) fn strides_of(alloc: Global, fleet: &Fleet) -> Result<Vec<usize>, AllocError>
    ensures { IfOk result (λ strides. HasStrides fleet.now strides.items) }
{
    law_fleet(fleet);
    let mut strides = Vec::with_capacity(alloc, fleet.stations())?;
    let mut stride = 1;
    for station in 0..fleet.stations() {
        strides.push(stride)?;
        stride *= fleet.crews(station) as usize + 1;
    }
    Ok(strides)
}

/// Writes how many crews of each station are busy in each state.
pub(crate) fn fill_digits(fleet: &Fleet, strides: &[usize], digits: &mut [u8])
    requires strides { HasStrides fleet.now strides.now }
    requires digits { length digits.old ≡ states fleet.now * stations fleet.now }
    ensures { HasDigits fleet.now digits.new }
{
    for place in 0..digits.len() {
        digits[place] = digit_at(fleet, strides, place);
    }
}

/// The busy crews at a place of the list: of each state stand all stations.
fn digit_at(fleet: &Fleet, strides: &[usize], place: usize) -> u8
    requires strides { HasStrides fleet.now strides.now }
    ensures { result ≡ busy_in fleet.now (place / stations fleet.now) (place % stations fleet.now) }
{
    let stations = fleet.stations();
    digit(fleet, strides, place / stations, place % stations)
}

/// How many crews of the station are busy in the state: this digit of its number.
fn digit(fleet: &Fleet, strides: &[usize], state: usize, station: usize) -> u8
    requires strides { HasStrides fleet.now strides.now }
    requires station { station < stations fleet.now }
    ensures { result ≡ busy_in fleet.now state station }
{
    law_fleet(fleet);
    let stride = strides[station];
    (state / stride % (fleet.crews(station) as usize + 1)) as u8
}
