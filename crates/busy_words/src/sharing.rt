use crate::Order;

fn take_shared<T: Send + Sync>(_value: &T) {}

/// An order can go from one thread to another, and be read by several.
fn shows_shared_order(order: &Order) {
    take_shared(order);
}
