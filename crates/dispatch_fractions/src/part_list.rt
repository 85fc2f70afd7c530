use crate::part_making::{help_parts, taken_parts, waiting_part};
use busy_words::{Order, full_part};
use fixed_interval::{Iv, Weights};
use hyper_model::Plan;
use std::alloc::{AllocError, Global};
use std::marker::Model;

/// The parts of a plan's weights from which its dispatches and travel times are made.
///
/// All are in units of `1 / 2^62`. What they are parts of are the calls that are answered: all of them if
/// calls wait, and if calls are lost those that come while a unit is free.
#[derive(Debug, Drop)]
pub struct Parts {
    units: usize,
    atoms: usize,
    taken: Vec<Iv>,
    full: Iv,
    help: Vec<Iv>,
}

impl Model for Parts {
    ghost use Rattle.std.specs.Prelude.{◌≡◌, ◌*◌, ◌≤◌, length};
    ghost use Rattle.hyper_model.specs.declared.TheConstants.{MOST_UNITS, MOST_ATOMS};
    ghost use Rattle.dispatch_fractions.specs.PartLists.{PartList};

    ghost Value = { PartList };

    ghost view = { λ a. record { units = a.units; atoms = a.atoms; taken = a.taken.items; full = a.full; help = a.help.items } };

    ghost invariant = { λ a. (a.units ≤ MOST_UNITS) × (a.atoms ≤ MOST_ATOMS) × (length a.taken.items ≡ a.units * a.atoms) × (length a.help.items ≡ a.units) };
}

impl Parts {
    ghost use Rattle.std.specs.Prelude.{◌≡◌, ◌<◌, IfOk, length};
    ghost use Rattle.fixed_interval.specs.WeightList.{ends_at};
    ghost use Rattle.busy_words.specs.WeightParts.{IsOrderOf, places};
    ghost use Rattle.dispatch_fractions.specs.PartLists.{AreSizedFor, parts_from, taken_by, help_of, waiting_on};

    /// The parts of these weights, one for each word in this order, and on the infinite line one more for the
    /// calls that wait.
    pub fn of(
        alloc: Global,
        plan: &Plan,
        order: &Order,
        weights: &Weights,
    ) -> Result<Parts, AllocError>
        requires order { IsOrderOf plan.now order.now }
        requires one_each { length weights.now.items ≡ places plan.now }
        ensures exact { IfOk result (λ parts. parts ≡ parts_from plan.now order.now (ends_at weights.now.items)) }
        ensures sized { IfOk result (AreSizedFor plan.now) }
    {
        let full = full_part(plan, weights);
        let taken = taken_parts(alloc, plan, order, weights)?;
        let help = help_parts(alloc, plan, waiting_part(plan, full))?;
        Ok(Parts {
            units: plan.units(),
            atoms: plan.atoms(),
            taken,
            full,
            help,
        })
    }

    /// The part of the atom's answered calls that the unit takes at once.
    pub fn e(&self, unit: usize, atom: usize) -> Iv
        requires unit { unit < self.now.units }
        requires atom { atom < self.now.atoms }
        ensures { result ≡ taken_by self.now unit atom }
    {
        self.taken[unit * self.atoms + atom]
    }

    /// The part of the states in which all units are busy: the chance that a call is lost or has to wait.
    pub fn d(&self) -> Iv
        ensures { result ≡ self.now.full }
    {
        self.full
    }

    /// The part of the answered calls that wait and are then the unit's. It is 0 if calls are lost.
    pub fn h(&self, unit: usize) -> Iv
        requires { unit < self.now.units }
        ensures { result ≡ help_of self.now unit }
    {
        self.help[unit]
    }

    /// The part of the answered calls that wait: `d` on the infinite line, and 0 if calls are lost.
    pub fn waiting(&self, plan: &Plan) -> Iv
        ensures { result ≡ waiting_on plan.now.line self.now.full }
    {
        waiting_part(plan, self.full)
    }
}
