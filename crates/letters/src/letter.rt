//! Letters and what they say.
ghost use Rattle.std.specs.Prelude.{◌≡◌, IsTrue, Ok, ◌++◌};
ghost use Rattle.letters.specs.Limits.{letter_fits};

use crate::fault::LetterFault;
use crate::head::Head;
use crate::phase::Phase;
use orders::Kind;
use std::alloc::AllocError;

/// What a letter says: a plain record, which may break a letter's rules.
#[derive(Clone, Copy, PartialEq, Eq, Debug)]
pub struct Content<K> {
    pub phase: Phase,
    /// The controller that the sender takes for the leader.
    pub leader: u8,
    /// Whether an accepted set of controllers named the sender leader.
    pub approved: bool,
    /// The round in which the estimate was last committed to, or 0.
    pub timestamp: u32,
    /// The order that the sender holds for the best.
    pub estimate: K,
}

/// One letter. It keeps the rules on size, sender, leader, round and timestamp for as long as it exists.
#[derive(Copy, PartialEq, Eq, Debug)]
pub struct Letter<K> {
    /// How many controllers the sender's group has.
    pub size: u8,
    pub sender: u8,
    pub round: u32,
    pub content: Content<K>,
    ghost ok: { IsTrue (letter_fits size sender content.leader content.phase round content.timestamp) },
}

// A derive of Clone is refused over a ghost field where K is not known to be Copy.
impl<K: Copy> Clone for Letter<K> {
    ghost is_clone = { λ x y. y ≡ x };

    ghost is_infallible = { λ _. Unit {0} };

    fn clone(&self) -> Result<Letter<K>, AllocError> {
        Ok(*self)
    }
}

impl<K: Kind> Content<K> {
    ghost use Rattle.letters.specs.Wire.{head_for};

    /// What a letter with this content says besides its estimate.
    fn head(self, size: u8, sender: u8, round: u32) -> Head
        ensures { result ≡ head_for size sender round self }
    {
        Head {
            phase: self.phase,
            size,
            sender,
            leader: self.leader,
            approved: self.approved,
            round,
            timestamp: self.timestamp,
        }
    }
}

impl<K: Kind> Letter<K> {
    ghost use Rattle.letters.specs.Heads.{head_fits};
    ghost use Rattle.letters.specs.Wire.{head_for, head_of, making, letter_bytes, reading, ReadExactly};

    /// The letter of these parts. Refused as garbled, at its place among the 32 bytes, for the first part that
    /// breaks a rule: size, sender, leader, round, timestamp.
    #[tactic(auto, using(crate::proofs::Letters::making_refused))]
    pub fn new(
        size: u8,
        sender: u8,
        round: u32,
        content: Content<K>,
    ) -> Result<Letter<K>, LetterFault>
        ensures { result ≡ making (head_for size sender round content) content.estimate }
    {
        let head = content.head(size, sender, round);
        head.check()?;
        Ok(Letter::with_head(head, content.estimate))
    }

    /// The letter that is written as these bytes. Refused as garbled at place 32 for another length, else at the
    /// first byte of the first wrong field; then as unreadable where the estimate is not a value of the kind.
    #[tactic(auto, using(crate::proofs::Letters::letter_long, crate::proofs::Letters::reading_wrong_length, crate::proofs::Letters::reading_exact))]
    pub fn read(bytes: &[u8]) -> Result<Letter<K>, LetterFault>
        ensures value { result ≡ reading K.meaning bytes.now }
        ensures exact { ReadExactly K.meaning bytes.now result }
    {
        match <&[u8; 32]>::try_from(bytes) {
            Ok(bytes) => Letter::read_fields(bytes),
            Err(_) => Err(LetterFault::Garbled { place: 32 }),
        }
    }

    /// The letter in 32 bytes.
    // A function of its own, since the proof of `value` did not close over the length and the steps of reading at once.
    #[tactic(auto, using(crate::proofs::Letters::reading_steps))]
    fn read_fields(bytes: &[u8; 32]) -> Result<Letter<K>, LetterFault>
        ensures { result ≡ reading K.meaning bytes.now }
    {
        let head = Head::read(bytes, K::width())?;
        let estimate = K::unpack(bytes.last_chunk().unwrap())?;
        Ok(Letter::with_head(head, estimate))
    }

    /// The bytes of the letter. Reading them gives the letter again.
    #[tactic(auto, using(crate::proofs::Letters::letter_halves))]
    pub fn write(&self) -> [u8; 32]
        ensures value { result ≡ letter_bytes K.meaning self.now }
        ensures back { reading K.meaning result ≡ Ok self.now }
    {
        let head = self.head().write(K::width());
        join(&head, &self.content.estimate.pack())
    }

    /// What the letter says besides its estimate.
    fn head(&self) -> Head
        ensures { result ≡ head_of self.now }
    {
        self.content.head(self.size, self.sender, self.round)
    }

    /// The letter with this head and estimate.
    fn with_head(head: Head, estimate: K) -> Letter<K>
        requires { IsTrue (head_fits head) }
        ensures { Ok result ≡ making head estimate }
    {
        let content = Content {
            phase: head.phase,
            leader: head.leader,
            approved: head.approved,
            timestamp: head.timestamp,
            estimate,
        };
        Letter {
            size: head.size,
            sender: head.sender,
            round: head.round,
            content,
        }
    }
}

/// The two halves of a letter, one after the other.
#[tactic(auto, using(crate::proofs::Bytes::halves))]
fn join(head: &[u8; 16], field: &[u8; 16]) -> [u8; 32]
    ensures { result ≡ head.now ++ field.now }
{
    let mut bytes = [0; 32];
    bytes[..16].copy_from_slice(head);
    bytes[16..].copy_from_slice(field);
    bytes
}
