use crate::{Solver, Weighed};

fn take_shared<T: Send + Sync>(_value: &T) {}

/// A solver and weights can go from one thread to another, and be read by several.
fn shows_shared_solver(solver: &Solver, weighed: &Weighed) {
    take_shared(solver);
    take_shared(weighed);
}
