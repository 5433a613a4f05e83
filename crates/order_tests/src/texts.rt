//! The texts of both kinds.
use order_text::Printable;
use orders::{Character, LampNumber, LampOrder};
use std::test::Fail;

#[test]
fn lamp_numbers(rt: HostRuntime) -> Result<(), Fail> {
    for (number, text) in [(1, "1"), (7, "7"), (12, "12")] {
        assert_eq!(rt; LampNumber::new(number)?.text(rt.alloc())?.as_str(), text);
    }
    Ok(())
}

/// A priority, a lamp and a character, and the text of an order of them.
#[rattlefmt::skip]
const ORDERS: [(u8, u8, Character, &str); 4] = [
    (0, 12, Character::Fixed,                                   "0/12/F"),
    (9,  1, Character::Flashing { period: 25 },                 "9/1/Fl25"),
    (1,  2, Character::Isophase { period: 600 },                "1/2/Iso600"),
    (5,  3, Character::GroupFlashing { count: 2, period: 100 }, "5/3/Fl(2)100"),
];

#[test]
fn lamp_orders(rt: HostRuntime) -> Result<(), Fail> {
    for (priority, number, character, text) in ORDERS {
        let order = LampOrder::new(priority, LampNumber::new(number)?, character)?;
        assert_eq!(rt; order.text(rt.alloc())?.as_str(), text);
    }
    Ok(())
}
