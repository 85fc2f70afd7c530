//! Tests of the way from a plan's text to the weights of its words, through all the crates on it.
//!
//! Wanted values come from outside: worked by hand, or found by `bench/chain_digests.py` from the same texts in whole
//! numbers without bound.
#![tactic(auto)]

#[cfg(test)]
mod by_hand;
#[cfg(test)]
mod cases;
#[cfg(test)]
mod chains;
#[cfg(test)]
mod digests;
#[cfg(test)]
mod every_way;
#[cfg(test)]
mod steps;
