//! Kinds of order: what the controllers settle on, as values that pack into a field of 16 bytes and
//! have a ranking. A kind shows its laws once, and everything above is proved from these laws alone.
#![tactic(auto)]

mod character;
mod fault;
mod field;
mod kind;
mod number;
mod order;

pub use character::Character;
pub use fault::OrderFault;
pub use kind::{Kind, unpack, width_of};
pub use number::LampNumber;
pub use order::LampOrder;
