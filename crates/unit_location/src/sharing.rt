use crate::Locations;

fn shared<T: Send + Sync>(_value: &T) {}

/// Locations can go from one thread to another, and be read by several.
fn shows_shared(locations: &Locations) {
    shared(locations);
}
