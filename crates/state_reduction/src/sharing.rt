use crate::Row;

fn take_shared<T: Send + Sync>(_value: &T) {}

/// A row can go from one thread to another, and be read by several.
fn shows_shared_row(row: &Row) {
    take_shared(row);
}
