use crate::{Iv, Weights, Wide};

fn take_shared<T: Send + Sync>(_value: &T) {}

/// Intervals and lists of weights can go from one thread to another, and be read by several.
fn shows_shared_intervals(narrow: &Iv, wide: &Wide, weights: &Weights) {
    take_shared(narrow);
    take_shared(wide);
    take_shared(weights);
}
