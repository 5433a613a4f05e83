//! Lamp orders: six bytes, for priority, lamp, code, count and the two of the period, then zeros.
use crate::fields::{Answer, FITS, answer, with};
use orders::{Character, Kind, LampNumber, LampOrder, unpack};
use std::process::Abort;
use std::test::Fail;

/// The first six bytes of a field: priority, lamp, code, count, and the period's high and low byte.
type Head = [u8; 6];

/// The field that is zero after its head.
fn field(head: Head) -> [u8; 16] {
    let mut field = [0; 16];
    field[0..6].copy_from_slice(&head);
    field
}

/// Each head is answered as its row says, and what reads packs to the same field.
fn check_heads(rt: &impl Abort, rows: &[(Head, Answer)]) {
    for (head, expected) in rows {
        let field = field(*head);
        let read = unpack::<LampOrder>(&field);
        if let Ok(order) = read {
            assert_eq!(rt; order.pack(), field);
        }
        assert_eq!(rt; answer(read), *expected, "{head:?}");
    }
}

#[test]
fn priority_lamp_and_code(rt: HostRuntime) {
    check_heads(
        &rt,
        &[
            ([0, 1, 0, 0, 0, 0], FITS),
            ([9, 1, 0, 0, 0, 0], FITS),
            ([10, 1, 0, 0, 0, 0], Some(0)),
            ([255, 1, 0, 0, 0, 0], Some(0)),
            ([5, 0, 0, 0, 0, 0], Some(1)),
            ([5, 12, 0, 0, 0, 0], FITS),
            ([5, 13, 0, 0, 0, 0], Some(1)),
            ([5, 3, 3, 2, 0, 10], FITS),
            ([5, 3, 4, 2, 0, 10], Some(2)),
            ([5, 3, 4, 0, 0, 0], Some(2)),
        ],
    );
}

#[test]
fn fixed_has_no_count_and_no_period(rt: HostRuntime) {
    check_heads(
        &rt,
        &[
            ([5, 3, 0, 0, 0, 0], FITS),
            ([5, 3, 0, 1, 0, 0], Some(3)),
            ([5, 3, 0, 2, 0, 0], Some(3)),
            ([5, 3, 0, 0, 0, 1], Some(4)),
            ([5, 3, 0, 0, 1, 0], Some(4)),
            ([5, 3, 0, 0, 0, 10], Some(4)),
        ],
    );
}

#[test]
fn flashing_and_isophase_have_a_period_alone(rt: HostRuntime) {
    for code in [1, 2] {
        check_heads(
            &rt,
            &[
                ([5, 3, code, 1, 0, 10], Some(3)),
                ([5, 3, code, 2, 0, 10], Some(3)),
                ([5, 3, code, 0, 0, 0], Some(4)),
                ([5, 3, code, 0, 0, 9], Some(4)),
                ([5, 3, code, 0, 0, 10], FITS),
                ([5, 3, code, 0, 1, 0], FITS),
                ([5, 3, code, 0, 0x02, 0x58], FITS),
                ([5, 3, code, 0, 0x02, 0x59], Some(4)),
                ([5, 3, code, 0, 0x58, 0x02], Some(4)),
            ],
        );
    }
}

#[test]
fn a_group_has_2_to_6_flashes_and_a_period(rt: HostRuntime) {
    check_heads(
        &rt,
        &[
            ([5, 3, 3, 0, 0, 10], Some(3)),
            ([5, 3, 3, 1, 0, 10], Some(3)),
            ([5, 3, 3, 2, 0, 10], FITS),
            ([5, 3, 3, 6, 0, 10], FITS),
            ([5, 3, 3, 7, 0, 10], Some(3)),
            ([5, 3, 3, 2, 0, 9], Some(4)),
            ([5, 3, 3, 2, 0x02, 0x58], FITS),
            ([5, 3, 3, 2, 0x02, 0x59], Some(4)),
            ([5, 3, 3, 2, 0x0A, 0x00], Some(4)),
        ],
    );
}

#[test]
fn the_first_wrong_field_counts(rt: HostRuntime) {
    check_heads(
        &rt,
        &[
            ([10, 0, 0, 0, 0, 0], Some(0)),
            ([10, 3, 0, 0, 0, 1], Some(0)),
            ([5, 13, 4, 0, 0, 0], Some(1)),
            ([5, 3, 4, 7, 0, 9], Some(2)),
            ([5, 3, 0, 1, 0, 1], Some(3)),
            ([5, 3, 3, 7, 0, 9], Some(3)),
        ],
    );
}

#[test]
fn a_stray_byte_is_refused_at_its_place(rt: HostRuntime) {
    let right = field([5, 3, 3, 2, 0, 100]);
    let wrong = field([5, 3, 3, 2, 0, 9]);
    for place in 6..16 {
        let stray = unpack::<LampOrder>(&with(right, place, 1));
        assert_eq!(rt; answer(stray), Some(place));
        let later = unpack::<LampOrder>(&with(wrong, place, 1));
        assert_eq!(rt; answer(later), Some(4), "{}", place);
    }
}

/// A priority and a character, and how an order of them is answered.
#[rattlefmt::skip]
const MADE: [(u8, Character, Answer); 14] = [
    ( 9, Character::Fixed,                                   FITS),
    (10, Character::Fixed,                                   Some(0)),
    ( 5, Character::Flashing { period: 9 },                  Some(4)),
    ( 5, Character::Flashing { period: 10 },                 FITS),
    ( 5, Character::Isophase { period: 600 },                FITS),
    ( 5, Character::Isophase { period: 601 },                Some(4)),
    ( 5, Character::GroupFlashing { count: 1, period: 10 },  Some(3)),
    ( 5, Character::GroupFlashing { count: 2, period: 10 },  FITS),
    ( 5, Character::GroupFlashing { count: 6, period: 10 },  FITS),
    ( 5, Character::GroupFlashing { count: 7, period: 10 },  Some(3)),
    ( 5, Character::GroupFlashing { count: 2, period: 9 },   Some(4)),
    ( 5, Character::GroupFlashing { count: 2, period: 601 }, Some(4)),
    // Of two wrong parts the first counts.
    (10, Character::Flashing { period: 9 },                  Some(0)),
    ( 5, Character::GroupFlashing { count: 7, period: 9 },   Some(3)),
];

#[test]
fn orders_are_made_within_the_same_limits(rt: HostRuntime) -> Result<(), Fail> {
    let lamp = LampNumber::new(3)?;
    for (priority, character, expected) in MADE {
        let order = LampOrder::new(priority, lamp, character);
        assert_eq!(rt; answer(order), expected, "{priority} {character:?}");
    }
    Ok(())
}

/// A priority, a lamp and a character, and the head that an order of them packs to.
#[rattlefmt::skip]
const PACKED: [(u8, u8, Character, Head); 4] = [
    (0, 12, Character::Fixed,                                   [0, 12, 0, 0, 0, 0]),
    (9,  1, Character::Flashing { period: 25 },                 [9, 1, 1, 0, 0, 25]),
    (1,  2, Character::Isophase { period: 600 },                [1, 2, 2, 0, 0x02, 0x58]),
    (5,  3, Character::GroupFlashing { count: 2, period: 100 }, [5, 3, 3, 2, 0, 100]),
];

#[test]
fn an_order_unpacks_from_its_field(rt: HostRuntime) -> Result<(), Fail> {
    for (priority, number, character, head) in PACKED {
        let order = LampOrder::new(priority, LampNumber::new(number)?, character)?;
        assert_eq!(rt; order.pack(), field(head));
        assert_eq!(rt; unpack::<LampOrder>(&field(head))?, order);
    }
    Ok(())
}

#[test]
fn the_first_byte_that_differs_ranks(rt: HostRuntime) -> Result<(), Fail> {
    for (high, low) in [
        ([6, 1, 0, 0, 0, 0], [5, 12, 3, 6, 0x02, 0x58]),
        ([5, 4, 0, 0, 0, 0], [5, 3, 3, 6, 0x02, 0x58]),
        ([5, 3, 1, 0, 0, 10], [5, 3, 0, 0, 0, 0]),
        ([5, 3, 3, 2, 0, 10], [5, 3, 2, 0, 0x02, 0x58]),
        ([5, 3, 3, 3, 0, 10], [5, 3, 3, 2, 0x02, 0x58]),
        // The period's high byte comes before its low byte.
        ([5, 3, 1, 0, 0x01, 0x00], [5, 3, 1, 0, 0x00, 0xFF]),
        ([5, 3, 1, 0, 0x01, 0x01], [5, 3, 1, 0, 0x01, 0x00]),
    ] {
        let higher = unpack::<LampOrder>(&field(high))?;
        let lower = unpack::<LampOrder>(&field(low))?;
        assert!(rt; higher.ranks_at_least(&lower), "{high:?}");
        assert!(rt; !lower.ranks_at_least(&higher), "{high:?}");
        // Equal orders rank at least as high as each other.
        let equal = unpack::<LampOrder>(&field(high))?;
        assert!(rt; higher.ranks_at_least(&equal) && equal.ranks_at_least(&higher));
    }
    Ok(())
}
