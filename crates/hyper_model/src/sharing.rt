use crate::{
    Atom, Atoms, Enclosed, Enclosures, Lists, Measure, Name, Names, Plan, PlanParts, Table, Unit,
    Units,
};

fn take_shared<T: Send + Sync>(_value: &T) {}

/// Plans, their parts and what is found of them can go from one thread to another, and be read by several.
fn shows_shared_plan(plan: &Plan, parts: &PlanParts, found: &Enclosures) {
    take_shared(plan);
    take_shared(parts);
    take_shared(found);
}

/// So can a name, and a list of names.
fn shows_shared_names(name: &Name, names: &Names) {
    take_shared(name);
    take_shared(names);
}

/// So can each part of a plan.
fn shows_shared_parts(unit: &Unit, units: &Units, atom: &Atom, atoms: &Atoms) {
    take_shared(unit);
    take_shared(units);
    take_shared(atom);
    take_shared(atoms);
}

/// So can its tables and lists.
fn shows_shared_tables(table: &Table, lists: &Lists) {
    take_shared(table);
    take_shared(lists);
}

/// So can a measure with its ends.
fn shows_shared_measure(measure: &Measure, enclosed: &Enclosed) {
    take_shared(measure);
    take_shared(enclosed);
}
