//! Texts of plans and fleets: what the crates that read them find, step by step, and why they refuse. Tests alone.
#![tactic(auto)]

#[cfg(test)]
mod accepted;
#[cfg(test)]
mod fleets;
#[cfg(test)]
mod large;
#[cfg(test)]
mod pieces;
#[cfg(test)]
mod records;
#[cfg(test)]
mod refused;
