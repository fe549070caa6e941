// What was asked of a disk since it was made. It exists only in proofs.
ghost use Rattle.std.specs.Prelude.{◌≡◌};
ghost use base.Fml.{ftrue};
ghost use Rattle.deferred_disk.specs.DiskRequests.{CallsValue, with_order, first_calls, calls_code, after_report};

use crate::order::Order;
use std::marker::Model;

#[derive(Drop)]
pub(crate) struct Past {
    ghost calls: { CallsValue } by { calls_code },
}

impl Model for Past {
    ghost also_owns = { λ _. ftrue };
}

impl Past {
    ghost use Rattle.deferred_disk.specs.NotedOrders.{order_value};

    // Two files of these bytes, and no order.
    pub(crate) fn of(_a: &Vec<u8>, _b: &Vec<u8>) -> Past
        ensures { result.calls ≡ first_calls _a.now.items _b.now.items }
    {
        Past {}
    }

    // One order more.
    pub(crate) fn then(&self, _order: &Order<'_>) -> Past
        ensures { result.calls ≡ with_order self.now.calls (order_value _order.now) }
    {
        Past {}
    }

    // All orders are done.
    pub(crate) fn reported(&self) -> Past
        ensures { result.calls ≡ after_report self.now.calls }
    {
        Past {}
    }
}
