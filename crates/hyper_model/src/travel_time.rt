ghost use Rattle.std.specs.Prelude.{◌≡◌, ◌*◌, ◌<◌, ◌≤◌, ℕ};
ghost use Rattle.hyper_model.specs.declared.TheConstants.{WHOLE_TIME};
ghost use Rattle.hyper_model.specs.Grid.{cell};
ghost use Rattle.hyper_model.specs.Sums.{sum_below};
ghost use Rattle.hyper_model.specs.TravelTimes.{mean_travel_in};

use crate::Table;

/// The mean travel time of a free unit to an atom, in thousandths of a second: over all atoms the
/// thousandths of its free time that the unit spends there, times the seconds of travel from there.
pub fn mean_thousandths(located: &Table, travel: &Table, unit: usize, atom: usize) -> u64
    requires unit { unit < located.now.rows }
    requires atom { atom < travel.now.cols }
    requires places { located.now.cols ≡ travel.now.rows }
    requires whole { sum_below located.now.cols (cell located.now unit) ≡ WHOLE_TIME }
    ensures mean { result ≡ mean_travel_in located.now travel.now unit atom }
    ensures most { (longest : ℕ) → ((k : ℕ) → k < travel.now.rows → cell travel.now k atom ≤ longest)
        → result ≤ 1000 * longest }
{
    let mut total = 0;
    for k in 0..located.cols() {
        let thousandths = u64::from(located.get(unit, k));
        let seconds = u64::from(travel.get(k, atom));
        total += thousandths * seconds;
    }
    total
}
