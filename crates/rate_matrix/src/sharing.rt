use crate::{OpenGate, RateMatrix};

fn take_shared<T: Send + Sync>(_value: &T) {}

/// A matrix and the open gate can go from one thread to another, and be read by several.
fn shows_shared_matrix(matrix: &RateMatrix, gate: &OpenGate) {
    take_shared(matrix);
    take_shared(gate);
}
