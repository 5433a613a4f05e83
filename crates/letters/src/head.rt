//! The head of a letter: its first 16 bytes, which say all but the estimate.
ghost use Rattle.std.specs.Prelude.{◌≡◌, IsTrue, [], IfOk, OnOk, None};
ghost use Rattle.letters.specs.declared.fault.LetterFault.TheVariants.{Garbled};

use crate::fault::LetterFault;
use crate::phase::Phase;
use refusals::ensure;
use voting::is_group;

/// The last round in which letters are sent.
const LAST_ROUND: u32 = 1_000_000;

/// What a letter says besides its estimate: a plain record, which may break a letter's rules.
// The fields of `Letter` and `Content` are public and stay where they are; here they stand once more for the checks and the bytes.
#[derive(Clone, Copy)]
pub(crate) struct Head {
    pub(crate) phase: Phase,
    pub(crate) size: u8,
    pub(crate) sender: u8,
    pub(crate) leader: u8,
    pub(crate) approved: bool,
    pub(crate) round: u32,
    pub(crate) timestamp: u32,
}

impl Head {
    ghost use Rattle.letters.specs.Limits.{is_round, on_time};
    ghost use Rattle.letters.specs.Heads.{head_bytes, head_fits, head_reading, group_wrong, clock_wrong, rule_broken, unless_wrong};

    /// The head in 32 bytes, for a kind of this width. Refused at the first byte of the first wrong field.
    #[tactic(auto, unfolding(crate::specs::Heads::head_reading))]
    #[rattlefmt::skip]
    pub(crate) fn read(bytes: &[u8; 32], width: u8) -> Result<Head, LetterFault>
        ensures value { result ≡ head_reading width bytes.now }
        ensures fits { IfOk result (λ head. IsTrue (head_fits head)) }
    {
        let [
            phase, size, sender, leader, approved, wide, zero, other_zero,
            r0, r1, r2, r3, t0, t1, t2, t3, ..
        ] = *bytes;
        // Whether these keep the rules is tested afterwards, in the order of their places.
        let head = Head {
            phase: Phase::try_from(phase)?,
            size,
            sender,
            leader,
            approved: approved == 1,
            round: u32::from_be_bytes([r0, r1, r2, r3]),
            timestamp: u32::from_be_bytes([t0, t1, t2, t3]),
        };
        head.check_group()?;
        ensure(approved <= 1, garbled(4))?;
        ensure(wide == width, garbled(5))?;
        ensure(zero == 0 && other_zero == 0, garbled(6))?;
        head.check_clock()?;
        Ok(head)
    }

    /// The first 16 bytes of a letter, for a kind of this width.
    #[rattlefmt::skip]
    pub(crate) fn write(self, width: u8) -> [u8; 16]
        ensures { result ≡ head_bytes width self [] }
    {
        let Head { size, sender, leader, .. } = self;
        let phase = u8::from(self.phase);
        let approved = u8::from(self.approved);
        let [r0, r1, r2, r3] = self.round.to_be_bytes();
        let [t0, t1, t2, t3] = self.timestamp.to_be_bytes();
        [
            phase, size, sender, leader, approved, width, 0, 0,
            r0, r1, r2, r3, t0, t1, t2, t3,
        ]
    }

    /// Refused at the place of the first part that breaks a letter's rules.
    pub(crate) fn check(self) -> Result<(), LetterFault>
        ensures value { result ≡ unless_wrong (rule_broken self) tt }
        ensures fits { OnOk result (IsTrue (head_fits self)) }
    {
        self.check_group()?;
        self.check_clock()
    }

    /// Refused at the place of the size, the sender or the leader, whichever first breaks a letter's rules.
    fn check_group(self) -> Result<(), LetterFault>
        ensures { result ≡ unless_wrong (group_wrong self None) tt }
    {
        ensure(is_group(usize::from(self.size)), garbled(1))?;
        ensure(self.sender < self.size, garbled(2))?;
        ensure(self.leader < self.size, garbled(3))
    }

    /// Refused at the place of the round or the timestamp, whichever first breaks a letter's rules.
    fn check_clock(self) -> Result<(), LetterFault>
        ensures { result ≡ unless_wrong (clock_wrong self) tt }
    {
        ensure(self.is_in_round(), garbled(8))?;
        ensure(self.is_on_time(), garbled(12))
    }

    /// Whether letters are sent in this round.
    fn is_in_round(self) -> bool
        ensures { result ≡ is_round self.round }
    {
        (1..=LAST_ROUND).contains(&self.round)
    }

    /// Whether a letter of this type and round may have this timestamp.
    fn is_on_time(self) -> bool
        ensures { result ≡ on_time self.phase self.round self.timestamp }
    {
        // A timestamp may be any four bytes, so that the sums below would wrap in 32 bits.
        let round = u64::from(self.round);
        let timestamp = u64::from(self.timestamp);
        match self.phase {
            Phase::Prepare => timestamp + 2 <= round || (round == 1 && timestamp == 0),
            Phase::Commit => 2 <= round && timestamp + 1 == round,
            Phase::Decide => timestamp + 2 <= round,
        }
    }
}

/// The fault of what is wrong at this place.
fn garbled(place: usize) -> LetterFault
    ensures { result ≡ Garbled place }
{
    LetterFault::Garbled { place }
}
