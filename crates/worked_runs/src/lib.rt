//! Whole runs: command lines over texts in memory, and what is written. Tests alone.
#![tactic(auto)]

#[cfg(test)]
mod cases;
#[cfg(test)]
mod commands;
#[cfg(test)]
mod days;
#[cfg(test)]
mod faults;
#[cfg(test)]
mod finite;
#[cfg(test)]
mod fleets;
#[cfg(test)]
mod hostile;
#[cfg(test)]
mod in_step;
#[cfg(test)]
mod meeting;
#[cfg(test)]
mod pairs;
#[cfg(test)]
mod reached;
#[cfg(test)]
mod reports;
#[cfg(test)]
mod same_bytes;
#[cfg(test)]
mod shelves;
#[cfg(test)]
mod sites;
#[cfg(test)]
mod solved;
#[cfg(test)]
mod studies;
#[cfg(test)]
mod words;
