//! Why the unit turns something down: every refusal has a reason, which fixes its number, its word
//! and its layer, and a place. Each layer has a fault type of its own that comes down to one of these.
#![tactic(auto)]

ghost use Rattle.std.specs.Prelude.{◌≡◌, Some, Ok, Err, if◌then◌else◌};
ghost use Rattle.refusals.specs.Refusals.{number_of, word_of, layer_of, refusal_text};

use std::error::Error;
use std::fmt;

/// The part of the unit that turned something down.
#[derive(Clone, Copy, PartialEq, Eq, Debug)]
pub enum Layer {
    Order,
    Letter,
    Rule,
    End,
    Script,
}

/// What was wrong, by the number that is printed.
#[derive(Clone, Copy, PartialEq, Eq, Debug)]
pub enum Reason {
    Size = 1,
    Number = 2,
    Garbled = 5,
    Unreadable = 11,
    Ballot = 12,
}

/// One refusal. The place counts from the first byte of what its layer reads, and is 0 where no byte is at fault.
#[derive(Clone, Copy, PartialEq, Eq, Debug)]
pub struct Refusal {
    pub reason: Reason,
    pub place: usize,
}

impl Reason {
    /// The word by which people speak of the reason. Printing the reason gives it too, but printing can fail.
    pub fn word(self) -> &'static str
        ensures { result.now ≡ word_of self }
    {
        match self {
            Reason::Size => "size",
            Reason::Number => "number",
            Reason::Garbled => "garbled",
            Reason::Unreadable => "unreadable",
            Reason::Ballot => "ballot",
        }
    }

    /// The layer that refuses for this reason.
    pub fn layer(self) -> Layer
        ensures { result ≡ layer_of self }
    {
        match self {
            Reason::Size | Reason::Number => Layer::End,
            Reason::Garbled => Layer::Letter,
            Reason::Unreadable => Layer::Order,
            Reason::Ballot => Layer::Rule,
        }
    }
}

/// The number that stands for the reason in what programs print.
impl From<Reason> for u8 {
    ghost from_gives = { λ reason number. number ≡ number_of reason };

    fn from(reason: Reason) -> u8 {
        reason as u8
    }
}

impl fmt::Display for Reason {
    ghost output = { λ reason. Some (word_of reason) };

    fn fmt<W: fmt::Write>(&self, f: &mut fmt::Formatter<W>) -> fmt::Result {
        f.write_str(self.word())
    }
}

/// A refusal as programs print it: its number and its place.
impl fmt::Display for Refusal {
    ghost output = { λ refusal. Some (refusal_text refusal) };

    fn fmt<W: fmt::Write>(&self, f: &mut fmt::Formatter<W>) -> fmt::Result {
        let number = u8::from(self.reason);
        let place = self.place;
        write!(f, "refused {number} {place}")
    }
}

impl Error for Refusal {}

/// Refused with this fault, unless what was tested holds.
pub fn ensure<E: Drop>(holds: bool, fault: E) -> Result<(), E>
    ensures { result ≡ (if holds then Ok tt else Err fault) }
{
    if holds { Ok(()) } else { Err(fault) }
}
