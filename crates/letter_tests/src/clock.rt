//! Rounds are 1 to 1,000,000. The timestamp of COMMIT is the round before, so it needs round 2; that of PREPARE and
//! DECIDE is at least two rounds back, but that PREPARE in round 1 has 0.
use crate::base::{Answer, FITS, NUMBER, ORDER, check_both, check_letter};
use letters::Phase;
use orders::{LampNumber, LampOrder};
use std::process::Abort;

/// The refusal of a round.
const NO_ROUND: Answer = Some((5, 8));

/// The refusal of a timestamp.
const OFF_TIME: Answer = Some((5, 12));

/// A type, a round and a timestamp, and how a letter with these is answered.
type Row = (Phase, u32, u32, Answer);

/// The letter with this type, round and timestamp.
fn at(base: &[u8; 32], phase: Phase, round: u32, timestamp: u32) -> [u8; 32] {
    let mut bytes = *base;
    bytes[0] = u8::from(phase);
    bytes[8..12].copy_from_slice(&round.to_be_bytes());
    bytes[12..16].copy_from_slice(&timestamp.to_be_bytes());
    bytes
}

/// The rows hold of the letters of both kinds.
fn check_clocks(rt: &impl Abort, rows: &[Row]) {
    for (phase, round, timestamp, expected) in rows {
        check_letter::<LampNumber>(rt, &at(&NUMBER, *phase, *round, *timestamp), *expected);
        check_letter::<LampOrder>(rt, &at(&ORDER, *phase, *round, *timestamp), *expected);
    }
}

#[test]
fn rounds_are_1_to_1_000_000(rt: HostRuntime) {
    check_clocks(
        &rt,
        &[
            (Phase::Prepare, 0, 0, NO_ROUND),
            (Phase::Prepare, 1, 0, FITS),
            (Phase::Prepare, 1_000_000, 999_998, FITS),
            (Phase::Commit, 1_000_000, 999_999, FITS),
            (Phase::Decide, 1_000_000, 999_998, FITS),
            (Phase::Prepare, 1_000_001, 999_999, NO_ROUND),
            (Phase::Commit, 1_000_001, 1_000_000, NO_ROUND),
            (Phase::Decide, 1_000_001, 999_999, NO_ROUND),
            (Phase::Prepare, u32::MAX, 0, NO_ROUND),
            (Phase::Commit, u32::MAX, u32::MAX - 1, NO_ROUND),
        ],
    );
}

#[test]
fn timestamps_of_the_first_round(rt: HostRuntime) {
    check_clocks(
        &rt,
        &[
            (Phase::Prepare, 1, 0, FITS),
            (Phase::Prepare, 1, 1, OFF_TIME),
            (Phase::Commit, 1, 0, OFF_TIME),
            (Phase::Commit, 1, 1, OFF_TIME),
            (Phase::Decide, 1, 0, OFF_TIME),
        ],
    );
}

#[test]
fn timestamps_of_later_rounds(rt: HostRuntime) {
    check_clocks(
        &rt,
        &[
            (Phase::Prepare, 2, 0, FITS),
            (Phase::Prepare, 2, 1, OFF_TIME),
            (Phase::Commit, 2, 0, OFF_TIME),
            (Phase::Commit, 2, 1, FITS),
            (Phase::Decide, 2, 0, FITS),
            (Phase::Decide, 2, 1, OFF_TIME),
            (Phase::Prepare, 5, 3, FITS),
            (Phase::Prepare, 5, 4, OFF_TIME),
            (Phase::Commit, 5, 3, OFF_TIME),
            (Phase::Commit, 5, 4, FITS),
            (Phase::Commit, 5, 5, OFF_TIME),
            (Phase::Decide, 5, 3, FITS),
            (Phase::Decide, 5, 4, OFF_TIME),
        ],
    );
}

#[test]
fn nothing_wraps(rt: HostRuntime) {
    for phase in [Phase::Prepare, Phase::Commit, Phase::Decide] {
        for round in [1, 2, 5, 1_000_000] {
            check_clocks(
                &rt,
                &[
                    (phase, round, u32::MAX - 1, OFF_TIME),
                    (phase, round, u32::MAX, OFF_TIME),
                ],
            );
        }
    }
}

#[test]
fn every_byte_counts(rt: HostRuntime) {
    check_both(
        &rt,
        &[
            (&[(8, 1)], NO_ROUND),
            (&[(9, 1)], FITS),
            (&[(10, 1)], FITS),
            (&[(11, 0)], NO_ROUND),
            // 1,000,000 and one more.
            (&[(9, 0x0F), (10, 0x42), (11, 0x40)], FITS),
            (&[(9, 0x0F), (10, 0x42), (11, 0x41)], NO_ROUND),
            (&[(12, 1)], OFF_TIME),
            (&[(13, 1)], OFF_TIME),
            (&[(14, 1)], OFF_TIME),
            (&[(15, 4)], OFF_TIME),
            // In round 65,541 the timestamp 65,539 is the last that fits, and in round 261 it is 259.
            (&[(9, 1), (13, 1)], FITS),
            (&[(9, 1), (13, 1), (15, 4)], OFF_TIME),
            (&[(10, 1), (14, 1)], FITS),
            (&[(10, 1), (14, 1), (15, 4)], OFF_TIME),
        ],
    );
}
