ghost use Rattle.std.specs.Prelude.{◌≡◌, ◌<◌, ◌≤◌, ℕ, MatchResult};
ghost use Rattle.hyper_model.specs.declared.TheConstants.{MOST_UNITS, MOST_ATOMS, MOST_RATE, MOST_PERIOD, MOST_TRAVEL, WHOLE_TIME, SHARES};
ghost use Rattle.hyper_model.specs.Plans.{units, atoms, unit_at, atom_at, all_calls, all_service, located, travel, split, IsAccepted};

use crate::acceptance::is_accepted;
use crate::plan_sums::split_of;
use crate::{Atom, Line, Lists, PlanParts, Rule, Table, Unit};
use std::marker::Model;

/// An accepted plan: parts that a fleet can have, with the sums of their rates.
#[derive(Debug, Drop)]
pub struct Plan {
    parts: PlanParts,
    calls: u32,
    service: u32,
    split: u32,
}

impl Model for Plan {
    ghost use Rattle.hyper_model.specs.declared.parts.PlanParts.{PlanParts};
    ghost use Rattle.hyper_model.specs.Plans.{IsSummed};

    ghost Value = { PlanParts };

    ghost view = { λ a. a.parts };

    ghost invariant = { λ a. IsSummed a.parts a.calls a.service a.split };
}

impl Plan {
    /// The plan of these parts. They are handed back if a unit, an atom, a list, a table or a rate is out
    /// of its limits, or if calls would queue without end.
    pub fn of(parts: PlanParts) -> Result<Plan, PlanParts>
        ensures { MatchResult result (λ plan. (plan ≡ parts) × IsAccepted parts)
            (λ back. (back ≡ parts) × (IsAccepted parts → ⊥)) }
    {
        if !is_accepted(&parts) {
            return Err(parts);
        }
        Ok(Plan::of_accepted(parts))
    }

    /// The plan of parts that a fleet can have.
    pub fn of_accepted(parts: PlanParts) -> Plan
        requires { IsAccepted parts }
        ensures { result ≡ parts }
    {
        let calls = parts.atoms.calls() as u32;
        let service = parts.units.service() as u32;
        let split = split_of(&parts);
        Plan {
            parts,
            calls,
            service,
            split,
        }
    }

    /// The parts that were accepted.
    pub fn parts(&self) -> &PlanParts
        ensures parts { result.now ≡ self.now }
        ensures accepted { IsAccepted self.now }
    {
        &self.parts
    }

    /// What becomes of a call while all units are busy.
    pub fn line(&self) -> Line
        ensures { result ≡ self.now.line }
    {
        self.parts.line
    }

    /// Where the preference lists come from.
    pub fn rule(&self) -> Rule
        ensures { result ≡ self.now.rule }
    {
        self.parts.rule
    }

    /// The period of all rates, in seconds, 1 to 100,000,000.
    pub fn period(&self) -> u32
        ensures period { result ≡ self.now.period }
        ensures least { 1 ≤ result }
        ensures most { result ≤ MOST_PERIOD }
    {
        self.parts.period
    }

    /// How many units there are, 1 to 12.
    pub fn units(&self) -> usize
        ensures units { result ≡ units self.now }
        ensures least { 1 ≤ result }
        ensures most { result ≤ MOST_UNITS }
    {
        self.parts.units.len()
    }

    /// How many atoms there are, 1 to 200.
    pub fn atoms(&self) -> usize
        ensures atoms { result ≡ atoms self.now }
        ensures least { 1 ≤ result }
        ensures most { result ≤ MOST_ATOMS }
    {
        self.parts.atoms.len()
    }

    /// Unit n, counted from 0.
    pub fn unit(&self, n: usize) -> &Unit
        requires { n < units self.now }
        ensures unit { result.now ≡ unit_at self.now n }
        ensures rate { (1 ≤ result.now.rate) × (result.now.rate ≤ MOST_RATE) }
    {
        self.parts.units.get(n)
    }

    /// Atom j, counted from 0.
    pub fn atom(&self, j: usize) -> &Atom
        requires { j < atoms self.now }
        ensures atom { result.now ≡ atom_at self.now j }
        ensures rate { result.now.rate ≤ MOST_RATE }
        ensures district { result.now.district < units self.now }
    {
        self.parts.atoms.get(j)
    }

    /// The preference list of each atom.
    pub fn lists(&self) -> &Lists
        ensures { result.now ≡ self.now.lists }
    {
        &self.parts.lists
    }

    /// The thousandths of its free time that unit n spends at atom k.
    pub fn located(&self, n: usize, k: usize) -> u32
        requires unit { n < units self.now }
        requires atom { k < atoms self.now }
        ensures located { result ≡ located self.now n k }
        ensures most { result ≤ WHOLE_TIME }
    {
        self.parts.located.get(n, k)
    }

    /// The seconds of travel from atom k to atom j, 0 to 100,000.
    pub fn travel(&self, k: usize, j: usize) -> u32
        requires from { k < atoms self.now }
        requires to { j < atoms self.now }
        ensures travel { result ≡ travel self.now k j }
        ensures most { result ≤ MOST_TRAVEL }
    {
        self.parts.travel.get(k, j)
    }

    /// The thousandths of each unit at each atom.
    pub fn located_table(&self) -> &Table
        ensures { result.now ≡ self.now.located }
    {
        &self.parts.located
    }

    /// The seconds of travel between each two atoms.
    pub fn travel_table(&self) -> &Table
        ensures { result.now ≡ self.now.travel }
    {
        &self.parts.travel
    }

    /// The rate of all calls per period, 1 to 1,000,000.
    pub fn calls(&self) -> u32
        ensures calls { result ≡ all_calls self.now }
        ensures least { 1 ≤ result }
        ensures most { result ≤ MOST_RATE }
        ensures accepted { IsAccepted self.now }
    {
        self.calls
    }

    /// The rate at which all units together serve, per period, 1 to 1,000,000.
    pub fn service(&self) -> u32
        ensures service { result ≡ all_service self.now }
        ensures least { 1 ≤ result }
        ensures most { result ≤ MOST_RATE }
        ensures accepted { IsAccepted self.now }
    {
        self.service
    }

    /// The factor of all rates in the balance equations: 1 if no group has two units, else 27,720, which
    /// each number of units divides.
    pub fn split(&self) -> u32
        ensures split { result ≡ split self.now }
        ensures least { 1 ≤ result }
        ensures most { result ≤ SHARES }
    {
        self.split
    }
}
