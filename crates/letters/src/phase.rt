//! The types of letter.
ghost use Rattle.std.specs.Prelude.{◌≡◌, Some};

use std::error::Error;
use std::fmt;

/// The type of a letter: how far its sender has come with its estimate. The number is the byte that is sent.
#[derive(Clone, Copy, PartialEq, Eq, Debug)]
pub enum Phase {
    Prepare = 1,
    Commit = 2,
    Decide = 3,
}

/// A byte that stands for no type of letter.
#[derive(Clone, Copy, PartialEq, Eq, Debug)]
pub struct UnknownPhase(pub u8);

impl Phase {
    ghost use Rattle.letters.specs.Phases.{phase_word};

    /// The word by which the type is printed. Printing the type gives it too, but printing can fail.
    pub fn word(self) -> &'static str
        ensures { result.now ≡ phase_word self }
    {
        match self {
            Phase::Prepare => "PREPARE",
            Phase::Commit => "COMMIT",
            Phase::Decide => "DECIDE",
        }
    }
}

/// The byte that stands for the type.
impl From<Phase> for u8 {
    ghost use Rattle.letters.specs.Phases.{phase_byte};

    ghost from_gives = { λ phase byte. byte ≡ phase_byte phase };

    fn from(phase: Phase) -> u8 {
        phase as u8
    }
}

/// The type that the byte stands for.
impl TryFrom<u8> for Phase {
    type Error = UnknownPhase;

    ghost use Rattle.letters.specs.Phases.{phase_of};

    ghost try_from_gives = { λ byte result. result ≡ phase_of byte };

    fn try_from(byte: u8) -> Result<Phase, UnknownPhase> {
        match byte {
            1 => Ok(Phase::Prepare),
            2 => Ok(Phase::Commit),
            3 => Ok(Phase::Decide),
            _ => Err(UnknownPhase(byte)),
        }
    }
}

impl fmt::Display for Phase {
    ghost use Rattle.letters.specs.Phases.{phase_word};

    ghost output = { λ phase. Some (phase_word phase) };

    fn fmt<W: fmt::Write>(&self, f: &mut fmt::Formatter<W>) -> fmt::Result {
        f.write_str(self.word())
    }
}

impl fmt::Display for UnknownPhase {
    ghost use Rattle.letters.specs.Phases.{unknown_text};

    ghost output = { λ unknown. Some (unknown_text unknown) };

    fn fmt<W: fmt::Write>(&self, f: &mut fmt::Formatter<W>) -> fmt::Result {
        write!(f, "no type of letter has byte {}", self.0)
    }
}

impl Error for UnknownPhase {}
