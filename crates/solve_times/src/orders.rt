ghost use Rattle.std.specs.Prelude.{◌≡◌, IfOk};
ghost use Rattle.hyper_model.specs.Plans.{units};

use busy_words::Order;
use hyper_model::Plan;
use std::alloc::{AllocError, Global};

/// The order of a plan's words.
pub(crate) fn order_of(alloc: Global, plan: &Plan) -> Result<Order, AllocError>
    ensures { IfOk result (λ order. order.units ≡ units plan.now) }
{
    Order::of(alloc, plan.units() as u8)
}
