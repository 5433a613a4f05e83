//! Kinds of order that have a text, and the texts of the two shipped kinds.
#![tactic(auto)]

ghost use Rattle.std.specs.Prelude.{◌≡◌, ℕ, List, Some, IfOk, string_bytes, refl};
ghost use Rattle.orders.specs.Texts.{text_of_lamp, text_of_order};

use orders::{Kind, LampNumber, LampOrder};
use std::alloc::{AllocError, Global};
use std::fmt::Display;

/// A kind of order that also has a text.
pub trait Printable: Kind {
    // The bytes of the text.
    ghost shown: { Self → List ℕ };

    /// The text of the value. Fails only for want of memory.
    fn text(&self, heap: Global) -> Result<String, AllocError>
        ensures { IfOk result (λ s. string_bytes s ≡ shown self.now) };
}

/// A kind of order that prints, so that it has a text.
// Not asked of every `Printable`, since a kind's `Display` may be for other eyes than its text, or there may be none.
pub trait Displayed: Kind + Display {
    // The bytes of what is printed.
    ghost printed: { Self → List ℕ };

    // Each value is printed so.
    ghost prints: { (v : Self) → Self.output v ≡ Some (printed v) };
}

/// What is printed is the text.
impl<K: Displayed> Printable for K {
    ghost shown = { K.printed };

    fn text(&self, heap: Global) -> Result<String, AllocError> {
        format!(in heap; "{self}")
    }
}

impl Displayed for LampNumber {
    ghost printed = { text_of_lamp };

    ghost prints = { λ _. refl };
}

impl Displayed for LampOrder {
    ghost printed = { text_of_order };

    ghost prints = { λ _. refl };
}
