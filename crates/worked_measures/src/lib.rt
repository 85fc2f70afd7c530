//! Worked plans and the ends of all their measures, as the solver finds them and from solutions by hand: only tests.
#![tactic(auto)]

#[cfg(test)]
mod by_hand;
#[cfg(test)]
mod certified;
#[cfg(test)]
mod fleets;
#[cfg(test)]
mod pairs;
#[cfg(test)]
mod plans;
#[cfg(test)]
mod tests;
