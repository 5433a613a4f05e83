//! Letters that are made from their parts, and how they are written.
use crate::base::{Answer, FITS, NUMBER, ORDER, answer};
use letters::{Content, Letter, LetterFault, Phase};
use orders::{Character, Kind, LampNumber, LampOrder};
use std::fmt::Debug;
use std::process::Abort;
use std::test::Fail;

/// The parts that the rules of a letter bind: size, sender, leader, type, round and timestamp.
type Parts = (u8, u8, u8, Phase, u32, u32);

/// An approved letter of these parts.
fn made<K: Kind>(parts: Parts, estimate: K) -> Result<Letter<K>, LetterFault> {
    let (size, sender, leader, phase, round, timestamp) = parts;
    let content = Content {
        phase,
        leader,
        approved: true,
        timestamp,
        estimate,
    };
    Letter::new(size, sender, round, content)
}

/// Parts, and how a letter of them is answered.
#[rattlefmt::skip]
const MADE: [(Parts, Answer); 21] = [
    ((1, 0, 0, Phase::Prepare, 5, 3),         Some((5, 1))),
    ((2, 0, 0, Phase::Prepare, 5, 3),         FITS),
    ((8, 0, 0, Phase::Prepare, 5, 3),         FITS),
    ((9, 0, 0, Phase::Prepare, 5, 3),         Some((5, 1))),
    ((4, 3, 1, Phase::Prepare, 5, 3),         FITS),
    ((4, 4, 1, Phase::Prepare, 5, 3),         Some((5, 2))),
    ((4, 2, 3, Phase::Prepare, 5, 3),         FITS),
    ((4, 2, 4, Phase::Prepare, 5, 3),         Some((5, 3))),
    ((4, 2, 1, Phase::Prepare, 0, 0),         Some((5, 8))),
    ((4, 2, 1, Phase::Prepare, 1, 0),         FITS),
    ((4, 2, 1, Phase::Prepare, 1_000_000, 3), FITS),
    ((4, 2, 1, Phase::Prepare, 1_000_001, 3), Some((5, 8))),
    ((4, 2, 1, Phase::Prepare, 5, 4),         Some((5, 12))),
    ((4, 2, 1, Phase::Commit,  5, 3),         Some((5, 12))),
    ((4, 2, 1, Phase::Commit,  5, 4),         FITS),
    ((4, 2, 1, Phase::Decide,  5, 4),         Some((5, 12))),
    ((4, 2, 1, Phase::Decide,  5, u32::MAX),  Some((5, 12))),
    // Of two wrong parts the first counts.
    ((9, 9, 0, Phase::Prepare, 5, 3),         Some((5, 1))),
    ((4, 4, 4, Phase::Prepare, 5, 3),         Some((5, 2))),
    ((4, 2, 4, Phase::Prepare, 0, 0),         Some((5, 3))),
    ((4, 2, 1, Phase::Prepare, 0, 5),         Some((5, 8))),
];

#[test]
fn letters_are_made_within_the_same_limits(rt: HostRuntime) -> Result<(), Fail> {
    let lamp = LampNumber::new(7)?;
    let order = LampOrder::new(5, lamp, Character::Fixed)?;
    for (parts, expected) in MADE {
        assert_eq!(rt; answer(made(parts, lamp)), expected);
        assert_eq!(rt; answer(made(parts, order)), expected);
    }
    Ok(())
}

/// The parts of both right letters.
const RIGHT: Parts = (4, 2, 1, Phase::Prepare, 5, 3);

/// The letter of the right parts and this estimate, and these bytes, are each the other's.
fn check_right<K: Kind + PartialEq + Debug>(
    rt: &impl Abort,
    estimate: K,
    bytes: &[u8; 32],
) -> Result<(), LetterFault> {
    let letter = made(RIGHT, estimate)?;
    let read = Letter::<K>::read(bytes)?;
    assert_eq!(rt; read.write(), *bytes);
    assert_eq!(rt; letter.write(), *bytes);
    assert_eq!(rt; read, letter);
    Ok(())
}

#[test]
fn a_letter_with_a_lamp_number(rt: HostRuntime) -> Result<(), Fail> {
    check_right(&rt, LampNumber::new(7)?, &NUMBER)?;
    Ok(())
}

#[test]
fn a_letter_with_a_lamp_order(rt: HostRuntime) -> Result<(), Fail> {
    let character = Character::GroupFlashing {
        count: 2,
        period: 100,
    };
    let order = LampOrder::new(5, LampNumber::new(3)?, character)?;
    check_right(&rt, order, &ORDER)?;
    Ok(())
}
