ghost use Rattle.std.specs.Prelude.{◌≡◌, ◌≢◌, length};
ghost use Rattle.plan_text.specs.Steps.{Gives};
ghost use Rattle.preference_rules.specs.Given.{centred_lists_of, preferences_of};

use crate::given::{given_lists, refuse_lists};
use crate::{ListRefusal, centred};
use atom_table::AtomTable;
use hyper_model::{Lists, Rule};
use plan_text::Record;
use std::alloc::Global;
use unit_location::Locations;

/// The preference list of each atom: by the rule `Given` those of the records, else those of [`centred`].
///
/// First the records that give lists are judged in order. By another rule than `Given` the first is refused. By the rule
/// `Given` an order has to be the only record for its atom, and a group may not stand after an order for its atom. Then,
/// by the rule `Given`, each atom in order needs a record, and its records together have to hold every unit exactly once.
///
/// The locations are those of the same units and atoms.
pub fn preferences(
    alloc: Global,
    rule: Rule,
    names: &AtomTable,
    locations: &Locations,
    records: &[Record],
) -> Result<Lists, ListRefusal>
    requires units { locations.now.rows ≡ length names.now.units }
    requires atoms { locations.now.cols ≡ length names.now.atoms }
    ensures { Gives ListRefusal.NoMemory (λ lists. lists) result (preferences_of rule names.now locations.now records.now) }
{
    match rule {
        Rule::Given => given_lists(alloc, names, records),
        Rule::Strict => unasked_lists(alloc, Rule::Strict, names, locations, records),
        Rule::Modified => unasked_lists(alloc, Rule::Modified, names, locations, records),
    }
}

/// The lists of a rule that asks for no records.
#[tactic(auto, unfolding(crate::specs::Given::centred_lists_of))]
fn unasked_lists(
    alloc: Global,
    rule: Rule,
    names: &AtomTable,
    locations: &Locations,
    records: &[Record],
) -> Result<Lists, ListRefusal>
    requires rule { rule ≢ Rule.Given }
    requires units { locations.now.rows ≡ length names.now.units }
    requires atoms { locations.now.cols ≡ length names.now.atoms }
    ensures { Gives ListRefusal.NoMemory (λ lists. lists) result (centred_lists_of rule names.now locations.now records.now) }
{
    refuse_lists(records)?;
    let lists = centred(alloc, rule, names.units(), names.atoms(), locations.table())?;
    Ok(lists)
}
