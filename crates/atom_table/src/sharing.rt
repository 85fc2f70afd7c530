use crate::AtomTable;

fn shared<T: Send + Sync>(_value: &T) {}

/// A table can go from one thread to another, and be read by several.
fn shows_shared(table: &AtomTable) {
    shared(table);
}
