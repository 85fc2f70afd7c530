ghost use Rattle.std.specs.Prelude.{◌≡◌, ◌<◌, ◌↔◌, ℕ, IsTrue, length, All};
ghost use Rattle.hyper_model.specs.Grid.{cell};
ghost use Rattle.hyper_model.specs.Sums.{sum_below};
ghost use Rattle.hyper_model.specs.Plans.{HasLists, HasLocations, HasTravel};
ghost use Rattle.hyper_model.specs.Acceptance.{places_in, EachStandsOnce, IsFullList, HasListSizes, AreGrouped, AreWhole, IsRowWithin};

use crate::{Lists, MOST_TRAVEL, PlanParts, Table, WHOLE_TIME};

pub(crate) fn has_lists(parts: &PlanParts) -> bool
    ensures { IsTrue result ↔ HasLists parts.now }
{
    has_list_sizes(parts) && are_grouped(&parts.lists)
}

fn has_list_sizes(parts: &PlanParts) -> bool
    ensures { IsTrue result ↔ HasListSizes parts.now }
{
    parts.lists.atoms() == parts.atoms.len() && parts.lists.units() == parts.units.len()
}

fn are_grouped(lists: &Lists) -> bool
    ensures { IsTrue result ↔ AreGrouped lists.now (length lists.now.rows) }
{
    let units = lists.units();
    for j in 0..lists.atoms() {
        if !is_full(lists.list(j), units) {
            return false;
        }
    }
    true
}

/// Whether each of the first units stands once in the list, and nothing else does.
fn is_full(list: &[u8], units: usize) -> bool
    ensures { IsTrue result ↔ IsFullList units list.now }
{
    are_units(list, units) && stands_each_once(list, units)
}

fn are_units(list: &[u8], units: usize) -> bool
    ensures { IsTrue result ↔ All (λ unit. unit < units) list.now }
{
    list.iter().all(|unit| usize::from(*unit) < units)
}

fn stands_each_once(list: &[u8], units: usize) -> bool
    ensures { IsTrue result ↔ EachStandsOnce units list.now }
{
    for unit in 0..units {
        if places_of(list, unit) != 1 {
            return false;
        }
    }
    true
}

/// At how many places of the list the unit stands.
pub fn places_of(list: &[u8], unit: usize) -> usize
    ensures { result ≡ places_in list.now unit }
{
    list.iter()
        .filter(|member| usize::from(**member) == unit)
        .count()
}

pub(crate) fn has_locations(parts: &PlanParts) -> bool
    ensures { IsTrue result ↔ HasLocations parts.now }
{
    parts.located.rows() == parts.units.len()
        && parts.located.cols() == parts.atoms.len()
        && are_whole(&parts.located)
}

fn are_whole(table: &Table) -> bool
    ensures { IsTrue result ↔ AreWhole table.now }
{
    for r in 0..table.rows() {
        if row_sum(table, r) != u64::from(WHOLE_TIME) {
            return false;
        }
    }
    true
}

fn row_sum(table: &Table, r: usize) -> u64
    requires { r < table.now.rows }
    ensures { result ≡ sum_below table.now.cols (cell table.now r) }
{
    let mut total = 0;
    for c in 0..table.cols() {
        total += u64::from(table.get(r, c));
    }
    total
}

pub(crate) fn has_travel(parts: &PlanParts) -> bool
    ensures { IsTrue result ↔ HasTravel parts.now }
{
    parts.travel.rows() == parts.atoms.len()
        && parts.travel.cols() == parts.atoms.len()
        && are_within(&parts.travel)
}

fn are_within(table: &Table) -> bool
    ensures { IsTrue result ↔ ((r : ℕ) → r < table.now.rows → IsRowWithin table.now r) }
{
    for r in 0..table.rows() {
        if !is_row_within(table, r) {
            return false;
        }
    }
    true
}

fn is_row_within(table: &Table, r: usize) -> bool
    requires { r < table.now.rows }
    ensures { IsTrue result ↔ IsRowWithin table.now r }
{
    for c in 0..table.cols() {
        if table.get(r, c) > MOST_TRAVEL {
            return false;
        }
    }
    true
}
