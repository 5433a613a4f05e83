//! Flash characters: how a light shows.
ghost use Rattle.std.specs.Prelude.{◌≡◌};

use crate::fault::OrderFault;
use refusals::ensure;
use std::fmt;

/// How a light shows. A period is in tenths of a second. Characters compare by the variant, later ones higher,
/// then the count, then the period.
#[derive(Clone, Copy, PartialEq, Eq, PartialOrd, Ord, Hash, Debug)]
pub enum Character {
    /// It shines without a break.
    Fixed,
    /// One flash in each period.
    Flashing { period: u16 },
    /// As long light as dark.
    Isophase { period: u16 },
    /// A group of flashes in each period.
    GroupFlashing { count: u8, period: u16 },
}

impl Character {
    ghost use Rattle.std.specs.Prelude.{Ok, IsTrue, IfOk};
    ghost use Rattle.orders.specs.Characters.{code_of, count_of, period_of, character_of, character_wrong, character_fits};
    ghost use Rattle.orders.specs.Fault.{unless_wrong};

    /// The byte that stands for the character.
    pub(crate) fn code(self) -> u8
        ensures { result ≡ code_of self }
    {
        match self {
            Character::Fixed => 0,
            Character::Flashing { .. } => 1,
            Character::Isophase { .. } => 2,
            Character::GroupFlashing { .. } => 3,
        }
    }

    /// The flashes of a group; 0 where there is no group.
    pub(crate) fn count(self) -> u8
        ensures { result ≡ count_of self }
    {
        match self {
            Character::GroupFlashing { count, .. } => count,
            Character::Fixed | Character::Flashing { .. } | Character::Isophase { .. } => 0,
        }
    }

    /// The period; 0 where there is none.
    pub(crate) fn period(self) -> u16
        ensures { result ≡ period_of self }
    {
        match self {
            Character::Fixed => 0,
            Character::Flashing { period }
            | Character::Isophase { period }
            | Character::GroupFlashing { period, .. } => period,
        }
    }

    /// Refused at place 3 for a count outside its limits, at place 4 for a period outside them.
    pub(crate) fn check(self) -> Result<(), OrderFault>
        ensures { result ≡ unless_wrong (character_wrong (code_of self) (count_of self) (period_of self)) (Ok tt) }
    {
        if let Character::GroupFlashing { count, .. } = self {
            ensure((2..=6).contains(&count), OrderFault { place: 3 })?;
        }
        let period_fits = self == Character::Fixed || (10..=600).contains(&self.period());
        ensure(period_fits, OrderFault { place: 4 })
    }

    /// The character of the bytes in a field. Refused at the place of the first that is wrong: 2 for the code, 3 for
    /// the count, 4 for the period.
    pub(crate) fn read(code: u8, count: u8, period: u16) -> Result<Character, OrderFault>
        ensures value { result ≡ unless_wrong (character_wrong code count period) (Ok (character_of code count period)) }
        ensures fits { IfOk result (λ c. IsTrue (character_fits c)) }
    {
        let character = match code {
            0 => Character::Fixed,
            1 => Character::Flashing { period },
            2 => Character::Isophase { period },
            3 => Character::GroupFlashing { count, period },
            _ => return Err(OrderFault { place: 2 }),
        };
        ensure(count == character.count(), OrderFault { place: 3 })?;
        ensure(period == character.period(), OrderFault { place: 4 })?;
        character.check()?;
        Ok(character)
    }
}

/// A character prints as on charts, the period in tenths of a second.
impl fmt::Display for Character {
    ghost use Rattle.std.specs.Prelude.{Some};
    ghost use Rattle.orders.specs.Texts.{text_of_character};

    ghost output = { λ character. Some (text_of_character character) };

    fn fmt<W: fmt::Write>(&self, f: &mut fmt::Formatter<W>) -> fmt::Result {
        match *self {
            Character::Fixed => write!(f, "F"),
            Character::Flashing { period } => write!(f, "Fl{period}"),
            Character::Isophase { period } => write!(f, "Iso{period}"),
            Character::GroupFlashing { count, period } => write!(f, "Fl({count}){period}"),
        }
    }
}
