//! The kind 'lamp order'.
ghost use Rattle.std.specs.Prelude.{IsTrue};
ghost use Rattle.orders.specs.OrderLimits.{order_fits};

use crate::character::Character;
use crate::fault::OrderFault;
use crate::field::check_zeros;
use crate::kind::Kind;
use crate::number::LampNumber;
use refusals::ensure;
use std::fmt;

/// How many bytes a lamp order takes.
const WIDTH: u8 = 6;

/// Which lamp is to show which character. Orders compare by priority, 0 to 9, then lamp, then character.
#[derive(Clone, Copy, PartialEq, Eq, PartialOrd, Ord, Hash, Debug)]
pub struct LampOrder {
    pub priority: u8,
    pub lamp: LampNumber,
    pub character: Character,
    ghost ok: { IsTrue (order_fits priority character) },
}

impl LampOrder {
    ghost use Rattle.std.specs.Prelude.{◌≡◌, None, Some, Ok, nat_le};
    ghost use Rattle.refusals.specs.Choice.{wrong_at};
    ghost use Rattle.orders.specs.Fault.{unless_wrong};
    ghost use Rattle.orders.specs.LampOrders.{order_of, order_making, order_in};

    /// The order of these parts. Refused as unreadable at the place of the first part that is outside its
    /// limits: 0 for the priority, 3 for the count, 4 for the period.
    pub fn new(
        priority: u8,
        lamp: LampNumber,
        character: Character,
    ) -> Result<LampOrder, OrderFault>
        ensures { result ≡ order_making priority lamp character }
    {
        LampOrder::check_priority(priority)?;
        character.check()?;
        Ok(LampOrder::from_parts(priority, lamp, character))
    }

    /// The order in the first six bytes of a field. Refused at the place of the first part that is wrong.
    #[tactic(auto, unfolding(crate::specs::LampOrders::order_in))]
    fn read(field: &[u8; 16]) -> Result<LampOrder, OrderFault>
        ensures { result ≡ order_in field.now }
    {
        let [priority, lamp, code, count, high, low, ..] = *field;
        LampOrder::check_priority(priority)?;
        let lamp = LampNumber::new(lamp).map_err(|_| OrderFault { place: 1 })?;
        let character = Character::read(code, count, u16::from_be_bytes([high, low]))?;
        Ok(LampOrder::from_parts(priority, lamp, character))
    }

    /// The order of parts that are within their limits.
    fn from_parts(priority: u8, lamp: LampNumber, character: Character) -> LampOrder
        requires { IsTrue (order_fits priority character) }
        ensures { order_of priority (Some lamp) character ≡ Some result }
    {
        LampOrder {
            priority,
            lamp,
            character,
        }
    }

    /// Refused at place 0 for a priority outside its limits.
    fn check_priority(priority: u8) -> Result<(), OrderFault>
        ensures { result ≡ unless_wrong (wrong_at (nat_le priority 9) 0 None) (Ok tt) }
    {
        ensure(priority <= 9, OrderFault { place: 0 })
    }
}

impl Kind for LampOrder {
    ghost use Rattle.orders.specs.LampOrders.{order_meaning};
    ghost use Rattle.orders.specs.LampOrdersLemmas.{order_lawful};

    ghost meaning = { order_meaning };

    ghost lawful = { order_lawful };

    fn width() -> u8 {
        WIDTH
    }

    // The bytes stand on one line, as they do in a field.
    #[rattlefmt::skip]
    fn pack(&self) -> [u8; 16] {
        let character = self.character;
        let (priority, lamp) = (self.priority, self.lamp.number);
        let (code, count) = (character.code(), character.count());
        let [high, low] = character.period().to_be_bytes();
        [priority, lamp, code, count, high, low, 0, 0, 0, 0, 0, 0, 0, 0, 0, 0]
    }

    #[tactic(auto, using(crate::specs::LampOrdersLemmas::order_unpacking))]
    fn unpack(field: &[u8; 16]) -> Result<LampOrder, OrderFault> {
        let order = LampOrder::read(field)?;
        check_zeros(field, usize::from(WIDTH))?;
        Ok(order)
    }

    #[tactic(auto, using(crate::proofs::Ranks::orders_rank))]
    fn ranks_at_least(&self, other: &LampOrder) -> bool {
        self >= other
    }
}

/// A lamp order prints as its priority, lamp and character: `5/3/Fl(2)100`.
impl fmt::Display for LampOrder {
    ghost use Rattle.std.specs.Prelude.{Some};
    ghost use Rattle.orders.specs.Texts.{text_of_order};

    ghost output = { λ order. Some (text_of_order order) };

    fn fmt<W: fmt::Write>(&self, f: &mut fmt::Formatter<W>) -> fmt::Result {
        write!(f, "{}/{}/{}", self.priority, self.lamp, self.character)
    }
}
