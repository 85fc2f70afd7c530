use crate::quoted::Quoted;
use crate::rows::Rows;
use crate::unsaid::Unsaid;
use std::alloc::{AllocError, Global};
use std::collections::BTreeSet;

/// How many missing pairs are named.
const MOST_NAMED: usize = 20;

/// A pair of atoms by their places.
type Pair = (usize, usize);

/// A second travel time of a pair of atoms.
pub(crate) fn travel_twice(alloc: Global, rows: &Rows, record: u64) -> Result<String, Unsaid> {
    let found = rows.record(record)?;
    let at = found.at();
    let row = found.row();
    let first = rows.first_pair(b"travel", row.field(1), row.field(2))?.at();
    let from = Quoted(row.field(1));
    let to = Quoted(row.field(2));
    Ok(format!(in alloc;
        ", {at}: the travel time from {from} to {to} is given twice, first in {first}. Delete one."
    )?)
}

/// Pairs of atoms without a travel time.
pub(crate) fn travel_missing(alloc: Global, rows: &Rows) -> Result<String, Unsaid> {
    let names = atom_names(alloc, rows)?;
    let given = pairs_given(alloc, rows, &names)?;
    let missing = pairs_missing(alloc, &given, names.len())?;
    let count = missing.len();
    if count == 0 {
        return Err(Unsaid::Unknown);
    }
    let all = names.len().saturating_mul(names.len());
    let are = if count == 1 { "is" } else { "are" };
    let list = pair_list(alloc, &names, &missing)?;
    Ok(format!(in alloc;
        ": {count} of {all} travel times {are} missing: {list}. Add a record travel,FROM,TO,SECONDS for each, \
in both directions, and from each atom to itself."
    )?)
}

/// The names of all atoms, in order.
fn atom_names(alloc: Global, rows: &Rows) -> Result<Vec<Vec<u8>>, AllocError> {
    let mut names = Vec::new(alloc);
    for item in rows.items() {
        if item.is_of(b"atom") {
            names.push(Vec::from_slice(alloc, item.row().field(1))?)?;
        }
    }
    Ok(names)
}

/// The pairs of atoms that have a travel time.
fn pairs_given(
    alloc: Global,
    rows: &Rows,
    names: &[Vec<u8>],
) -> Result<BTreeSet<Pair>, AllocError> {
    let mut given = BTreeSet::new(alloc);
    for item in rows.items() {
        if item.is_of(b"travel") {
            let row = item.row();
            if let Some(from) = place_of(names, row.field(1))
                && let Some(to) = place_of(names, row.field(2))
            {
                given.insert((from, to))?;
            }
        }
    }
    Ok(given)
}

fn place_of(names: &[Vec<u8>], name: &[u8]) -> Option<usize> {
    names.iter().position(|other| other.as_slice() == name)
}

/// The pairs of so many atoms that are not given, in order.
fn pairs_missing(
    alloc: Global,
    given: &BTreeSet<Pair>,
    count: usize,
) -> Result<Vec<Pair>, AllocError> {
    let mut missing = Vec::new(alloc);
    for from in 0..count {
        push_missing_from(&mut missing, given, from, count)?;
    }
    Ok(missing)
}

fn push_missing_from(
    missing: &mut Vec<Pair>,
    given: &BTreeSet<Pair>,
    from: usize,
    count: usize,
) -> Result<(), AllocError> {
    for to in 0..count {
        if !given.contains(&(from, to)) {
            missing.push((from, to))?;
        }
    }
    Ok(())
}

/// The first of the pairs, by their atoms' names.
fn pair_list(alloc: Global, names: &[Vec<u8>], pairs: &[Pair]) -> Result<String, AllocError> {
    let mut list = String::new(alloc);
    for (number, pair) in pairs.iter().take(MOST_NAMED).enumerate() {
        let from = name_in(names, pair.0);
        let to = name_in(names, pair.1);
        let comma = if number > 0 { ", " } else { "" };
        write!(list, "{comma}from {from} to {to}")?;
    }
    if pairs.len() > MOST_NAMED {
        list.push_str(" and others")?;
    }
    Ok(list)
}

fn name_in<'a>(names: &'a [Vec<u8>], place: usize) -> Quoted<'a> {
    match names.get(place) {
        Some(name) => Quoted(name.as_slice()),
        None => Quoted(b""),
    }
}
