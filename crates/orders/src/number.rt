//! The kind 'lamp number'.
ghost use Rattle.std.specs.Prelude.{IsTrue};
ghost use Rattle.orders.specs.Lamps.{is_lamp};

use crate::fault::OrderFault;
use crate::field::check_zeros;
use crate::kind::Kind;
use std::fmt;

/// How many bytes a lamp number takes.
const WIDTH: u8 = 1;

/// The number of a lamp on the carousel, 1 to 12.
#[derive(Clone, Copy, PartialEq, Eq, PartialOrd, Ord, Hash, Debug)]
pub struct LampNumber {
    pub number: u8,
    ghost ok: { IsTrue (is_lamp number) },
}

impl LampNumber {
    ghost use Rattle.std.specs.Prelude.{◌≡◌};
    ghost use Rattle.std.specs.Option.{ok_or};
    ghost use Rattle.orders.specs.Fault.{unreadable_at};
    ghost use Rattle.orders.specs.LampNumbers.{lamp_of};

    /// The lamp of this number. Refused as unreadable at place 0 when the carousel has none.
    pub fn new(number: u8) -> Result<LampNumber, OrderFault>
        ensures { result ≡ ok_or (lamp_of number) (unreadable_at 0) }
    {
        if (1..=12).contains(&number) {
            Ok(LampNumber { number })
        } else {
            Err(OrderFault { place: 0 })
        }
    }
}

impl Kind for LampNumber {
    ghost use Rattle.orders.specs.LampNumbers.{lamp_meaning};
    ghost use Rattle.orders.specs.LampNumbersLemmas.{lamp_lawful};

    ghost meaning = { lamp_meaning };

    ghost lawful = { lamp_lawful };

    fn width() -> u8 {
        WIDTH
    }

    fn pack(&self) -> [u8; 16] {
        let mut field = [0; 16];
        field[0] = self.number;
        field
    }

    #[tactic(auto, using(crate::specs::LampNumbersLemmas::lamp_unpacking))]
    fn unpack(field: &[u8; 16]) -> Result<LampNumber, OrderFault> {
        let lamp = LampNumber::new(field[0])?;
        check_zeros(field, usize::from(WIDTH))?;
        Ok(lamp)
    }

    fn ranks_at_least(&self, other: &LampNumber) -> bool {
        self >= other
    }
}

/// A lamp number prints as its decimal digits.
impl fmt::Display for LampNumber {
    ghost use Rattle.std.specs.Prelude.{Some};
    ghost use Rattle.orders.specs.Texts.{text_of_lamp};

    ghost output = { λ lamp. Some (text_of_lamp lamp) };

    fn fmt<W: fmt::Write>(&self, f: &mut fmt::Formatter<W>) -> fmt::Result {
        write!(f, "{}", self.number)
    }
}
