//! A letter has 32 bytes, and another length is refused before anything else.
use crate::base::{FITS, NUMBER, ORDER, answer};
use letters::Letter;
use orders::{Kind, LampNumber, LampOrder};
use std::process::Abort;

/// Bytes enough for two letters that begin with this one.
fn followed(letter: &[u8; 32]) -> [u8; 64] {
    let mut bytes = [0; 64];
    bytes[0..32].copy_from_slice(letter);
    bytes
}

/// The first 0, 1, 31, 33 and 64 bytes are refused for their length.
fn check_lengths<K: Kind>(rt: &impl Abort, bytes: &[u8; 64]) {
    for part in [
        &bytes[0..0],
        &bytes[0..1],
        &bytes[0..31],
        &bytes[0..33],
        &bytes[0..64],
    ] {
        assert_eq!(rt;
            answer(Letter::<K>::read(part)),
            Some((5, 32)),
            "{}",
            part.len()
        );
    }
}

#[test]
fn other_lengths_are_garbled(rt: HostRuntime) {
    check_lengths::<LampNumber>(&rt, &followed(&NUMBER));
    check_lengths::<LampOrder>(&rt, &followed(&ORDER));
}

#[test]
fn the_length_counts_before_the_first_byte(rt: HostRuntime) {
    check_lengths::<LampNumber>(&rt, &[0; 64]);
    check_lengths::<LampOrder>(&rt, &[0; 64]);
}

#[test]
fn a_letter_reads_from_the_front_of_more(rt: HostRuntime) {
    let bytes = followed(&NUMBER);
    assert_eq!(rt; answer(Letter::<LampNumber>::read(&bytes[0..32])), FITS);
}
