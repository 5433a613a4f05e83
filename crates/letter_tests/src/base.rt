//! One right letter of each kind, and how the tables change it.
use letters::{Letter, LetterFault};
use orders::{Kind, LampNumber, LampOrder};
use refusals::Refusal;
use std::process::Abort;

/// A letter with lamp 7 for its estimate.
#[rattlefmt::skip]
pub(crate) const NUMBER: [u8; 32] = [
    1, 4, 2, 1, 1, 1, 0, 0, // PREPARE in a group of 4, sender 2, leader 1, approved, width 1, zeros
    0, 0, 0, 5, 0, 0, 0, 3, // round 5, timestamp 3
    7, 0, 0, 0, 0, 0, 0, 0, 0, 0, 0, 0, 0, 0, 0, 0,
];

/// The same letter but for its width and its estimate: priority 5, lamp 3, groups of 2 flashes every 10 seconds.
#[rattlefmt::skip]
pub(crate) const ORDER: [u8; 32] = [
    1, 4, 2, 1, 1, 6, 0, 0,
    0, 0, 0, 5, 0, 0, 0, 3,
    5, 3, 3, 2, 0, 100, 0, 0, 0, 0, 0, 0, 0, 0, 0, 0,
];

/// The number and the place of a refusal, if it is one.
pub(crate) type Answer = Option<(u8, usize)>;

/// The answer to what reads, or can be made.
pub(crate) const FITS: Answer = None;

/// The answer that a result stands for.
pub(crate) fn answer<T: Drop>(res: Result<T, LetterFault>) -> Answer {
    let refusal = Refusal::from(res.err()?);
    Some((u8::from(refusal.reason), refusal.place))
}

/// The bytes are answered as expected, and a letter that reads is written as the same bytes.
pub(crate) fn check_letter<K: Kind>(rt: &impl Abort, bytes: &[u8; 32], expected: Answer) {
    let read = Letter::<K>::read(bytes);
    if let Ok(letter) = &read {
        assert_eq!(rt; letter.write(), *bytes);
    }
    assert_eq!(rt; answer(read), expected, "{bytes:?}");
}

/// The places that are changed, each with its new byte, and how the letter is answered then.
pub(crate) type Row<'a> = (&'a [(usize, u8)], Answer);

/// Another byte at a place.
// A twin of `with` in the tests of orders, as `answer` is: a crate for both would be longer than they are.
fn put(bytes: &mut [u8; 32], place: usize, byte: u8) {
    if let Some(old) = bytes.get_mut(place) {
        *old = byte;
    }
}

/// The letter with all of these changes.
fn changed(base: &[u8; 32], changes: &[(usize, u8)]) -> [u8; 32] {
    let mut bytes = *base;
    for (place, byte) in changes {
        put(&mut bytes, *place, *byte);
    }
    bytes
}

/// The rows hold of a letter of this kind.
pub(crate) fn check_rows<K: Kind>(rt: &impl Abort, base: &[u8; 32], rows: &[Row<'_>]) {
    for (changes, expected) in rows {
        check_letter::<K>(rt, &changed(base, changes), *expected);
    }
}

/// The rows hold of the letters of both kinds.
pub(crate) fn check_both(rt: &impl Abort, rows: &[Row<'_>]) {
    check_rows::<LampNumber>(rt, &NUMBER, rows);
    check_rows::<LampOrder>(rt, &ORDER, rows);
}
