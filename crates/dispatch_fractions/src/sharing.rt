use crate::Parts;

fn take_shared<T: Send + Sync>(_value: &T) {}

/// Parts can go from one thread to another, and be read by several.
fn shows_shared_parts(parts: &Parts) {
    take_shared(parts);
}
