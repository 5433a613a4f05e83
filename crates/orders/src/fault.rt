//! What the order layer refuses.
ghost use Rattle.std.specs.Prelude.{◌≡◌};

use refusals::{Reason, Refusal};

/// A field that is not a value of the kind, with the place in the field that the kind names.
#[derive(Clone, Copy, PartialEq, Eq, Debug)]
pub struct OrderFault {
    pub place: usize,
}

/// A fault comes to the refusal as unreadable, at its place.
impl From<OrderFault> for Refusal {
    ghost use Rattle.orders.specs.Fault.{order_refusal};

    ghost from_gives = { λ fault refusal. refusal ≡ order_refusal fault };

    fn from(fault: OrderFault) -> Refusal {
        Refusal {
            reason: Reason::Unreadable,
            place: fault.place,
        }
    }
}
