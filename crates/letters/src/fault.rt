//! What the letter layer refuses.
ghost use Rattle.std.specs.Prelude.{◌≡◌};
ghost use Rattle.letters.specs.declared.fault.LetterFault.TheVariants.{Garbled, Order};

use crate::phase::UnknownPhase;
use orders::OrderFault;
use refusals::{Reason, Refusal};

/// Why bytes are no letter.
#[derive(Clone, Copy, PartialEq, Eq, Debug)]
pub enum LetterFault {
    /// A field breaks the layout, at its first byte; 32 for a wrong length.
    Garbled { place: usize },
    /// The estimate is not a value of the kind.
    Order(OrderFault),
}

impl From<OrderFault> for LetterFault {
    ghost from_gives = { λ f r. r ≡ Order f };

    fn from(fault: OrderFault) -> LetterFault {
        LetterFault::Order(fault)
    }
}

/// A letter's type is its first byte.
impl From<UnknownPhase> for LetterFault {
    ghost from_gives = { λ _ fault. fault ≡ Garbled 0 };

    fn from(_unknown: UnknownPhase) -> LetterFault {
        LetterFault::Garbled { place: 0 }
    }
}

/// The refusal that a fault comes to; one from the order layer keeps its number and place.
impl From<LetterFault> for Refusal {
    ghost use Rattle.letters.specs.Fault.{letter_refusal};

    ghost from_gives = { λ fault refusal. refusal ≡ letter_refusal fault };

    fn from(fault: LetterFault) -> Refusal {
        match fault {
            LetterFault::Garbled { place } => Refusal {
                reason: Reason::Garbled,
                place,
            },
            LetterFault::Order(order) => Refusal::from(order),
        }
    }
}
