//! Letters: what one controller tells the others in a round, and the 32 bytes in which it is sent.
#![tactic(auto)]

mod fault;
mod head;
mod letter;
mod phase;

pub use fault::LetterFault;
pub use letter::{Content, Letter};
pub use phase::{Phase, UnknownPhase};
