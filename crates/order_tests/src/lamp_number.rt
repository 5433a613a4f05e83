//! Lamp numbers: 1 to 12, in the first byte of a field that is zero from there on.
use crate::fields::{FITS, answer, with};
use orders::{Kind, LampNumber, unpack};
use std::test::Fail;

/// The field of lamp 7.
const SEVEN: [u8; 16] = [7, 0, 0, 0, 0, 0, 0, 0, 0, 0, 0, 0, 0, 0, 0, 0];

#[test]
fn lamps_are_1_to_12(rt: HostRuntime) {
    for (number, expected) in [
        (0, Some(0)),
        (1, FITS),
        (12, FITS),
        (13, Some(0)),
        (255, Some(0)),
    ] {
        let field = with(SEVEN, 0, number);
        assert_eq!(rt; answer(LampNumber::new(number)), expected, "{}", number);
        assert_eq!(rt;
            answer(unpack::<LampNumber>(&field)),
            expected,
            "{}",
            number
        );
    }
}

#[test]
fn a_stray_byte_is_refused_at_its_place(rt: HostRuntime) {
    for place in 1..16 {
        for stray in [1, 255] {
            let field = with(SEVEN, place, stray);
            assert_eq!(rt; answer(unpack::<LampNumber>(&field)), Some(place));
        }
    }
}

#[test]
fn the_first_wrong_byte_counts(rt: HostRuntime) {
    for (first, second) in [(1, 2), (1, 15), (7, 9), (14, 15)] {
        let strays = with(with(SEVEN, first, 1), second, 1);
        assert_eq!(rt; answer(unpack::<LampNumber>(&strays)), Some(first));
        // A wrong number stands before every stray byte.
        let wrong = with(strays, 0, 13);
        assert_eq!(rt; answer(unpack::<LampNumber>(&wrong)), Some(0));
    }
}

#[test]
fn every_lamp_unpacks_from_its_field(rt: HostRuntime) -> Result<(), Fail> {
    for number in 1..13 {
        let lamp = LampNumber::new(number)?;
        assert_eq!(rt; lamp.pack(), with(SEVEN, 0, number));
        assert_eq!(rt; unpack::<LampNumber>(&lamp.pack())?, lamp);
    }
    Ok(())
}

#[test]
fn the_higher_number_ranks_higher(rt: HostRuntime) -> Result<(), Fail> {
    for number in 1..12 {
        let lower = LampNumber::new(number)?;
        let higher = LampNumber::new(number + 1)?;
        assert!(rt; higher.ranks_at_least(&lower), "{}", number);
        assert!(rt; !lower.ranks_at_least(&higher), "{}", number);
        assert!(rt; lower.ranks_at_least(&lower), "{}", number);
    }
    Ok(())
}
