//! What a letter says, whatever the kind of its estimate.
ghost use Rattle.std.specs.Prelude.{◌≡◌, IfOk, Decides, if◌then◌else◌};
ghost use Rattle.letters.specs.Wire.{letter_bytes};
ghost use Rattle.letter_report.specs.Report.{claims_order, summary_as, summary_of};

use letters::{Letter, Phase};
use order_text::Printable;
use orders::{Kind, LampNumber, LampOrder};
use refusals::Refusal;
use std::alloc::{AllocError, Global};
use std::fmt;
use std::marker::Model;

/// What a letter says, the estimate as its text.
#[derive(Drop)]
pub(crate) struct Summary {
    phase: Phase,
    size: u8,
    sender: u8,
    leader: u8,
    approved: bool,
    width: u8,
    round: u32,
    timestamp: u32,
    estimate: String,
    // Whether writing the letter gave the bytes that it was read from: compared at run time, and proved to be so.
    same: bool,
}

impl Model for Summary {
    ghost use Rattle.letter_report.specs.Report.{Fields};

    ghost Value = { Fields };

    ghost use Rattle.letter_report.specs.Summary.{fields_in};

    ghost view = { fields_in };
}

impl Summary {
    ghost use Rattle.letter_report.specs.Report.{fields_of};

    /// What a letter says, which was read from these bytes.
    fn new<K: Printable>(
        heap: Global,
        letter: &Letter<K>,
        bytes: &[u8],
    ) -> Result<Summary, AllocError>
        requires { letter_bytes K.Kind.meaning letter.now ≡ bytes.now }
        ensures { IfOk result (λ summary. summary ≡ fields_of K.Kind.meaning K.shown letter.now) }
    {
        let estimate = letter.content.estimate.text(heap)?;
        Ok(Summary {
            phase: letter.content.phase,
            size: letter.size,
            sender: letter.sender,
            leader: letter.content.leader,
            approved: letter.content.approved,
            width: K::width(),
            round: letter.round,
            timestamp: letter.content.timestamp,
            estimate,
            same: gives(letter, bytes),
        })
    }
}

/// Each field on a line.
#[derive(Clone, Copy)]
pub(crate) struct Lines<'a>(pub(crate) &'a Summary);

impl fmt::Display for Lines<'_> {
    ghost use Rattle.std.specs.Prelude.{Some};
    ghost use Rattle.letter_report.specs.Report.{lines};

    ghost output = { λ it. Some (lines it.0.now) };

    fn fmt<W: fmt::Write>(&self, f: &mut fmt::Formatter<W>) -> fmt::Result {
        let summary = self.0;
        let (parties, state) = (Parties(summary), State(summary));
        let again = in_words(summary.same, "the same 32 bytes", "other bytes");
        writeln!(f, "{parties}{state}written again: {again}")
    }
}

/// The type, the group and who speaks of whom.
#[derive(Clone, Copy)]
struct Parties<'a>(&'a Summary);

impl fmt::Display for Parties<'_> {
    ghost use Rattle.std.specs.Prelude.{Some};
    ghost use Rattle.letter_report.specs.Report.{parties_lines};

    ghost output = { λ it. Some (parties_lines it.0.now) };

    #[tactic(auto, unfolding(crate::specs::Report::parties_lines))]
    fn fmt<W: fmt::Write>(&self, f: &mut fmt::Formatter<W>) -> fmt::Result {
        let summary = self.0;
        let Summary {
            phase,
            size,
            sender,
            leader,
            ..
        } = summary;
        write!(
            f,
            "type {phase}\ngroup of {size}\nsender {sender}\nleader {leader}\n"
        )
    }
}

/// What the sender holds.
#[derive(Clone, Copy)]
struct State<'a>(&'a Summary);

impl fmt::Display for State<'_> {
    ghost use Rattle.std.specs.Prelude.{Some};
    ghost use Rattle.letter_report.specs.Report.{state_lines};

    ghost output = { λ it. Some (state_lines it.0.now) };

    #[tactic(auto, unfolding(crate::specs::Report::state_lines))]
    fn fmt<W: fmt::Write>(&self, f: &mut fmt::Formatter<W>) -> fmt::Result {
        let summary = self.0;
        let Summary {
            width,
            round,
            timestamp,
            estimate,
            ..
        } = summary;
        let approved = in_words(summary.approved, "yes", "no");
        write!(
            f,
            "approved {approved}\nwidth {width}\nround {round}\ntimestamp {timestamp}\nestimate {estimate}\n"
        )
    }
}

/// All fields in one line.
#[derive(Clone, Copy)]
pub(crate) struct Line<'a>(pub(crate) &'a Summary);

impl fmt::Display for Line<'_> {
    ghost use Rattle.std.specs.Prelude.{Some};
    ghost use Rattle.letter_report.specs.Report.{line};

    ghost output = { λ it. Some (line it.0.now) };

    fn fmt<W: fmt::Write>(&self, f: &mut fmt::Formatter<W>) -> fmt::Result {
        let summary = self.0;
        let Summary {
            phase,
            size,
            sender,
            leader,
            width,
            round,
            timestamp,
            estimate,
            ..
        } = summary;
        let approved = u8::from(summary.approved);
        let again = in_words(summary.same, "same", "other");
        write!(f, "{phase} {size} {sender} {leader} ")?;
        write!(f, "{approved} {width} {round} {timestamp} ")?;
        write!(f, "{estimate} {again}")
    }
}

/// What the bytes say, for the kind whose width they claim, or the refusal. Fails only for want of memory.
pub(crate) fn summarize(heap: Global, bytes: &[u8]) -> Result<Result<Summary, Refusal>, AllocError>
    ensures { IfOk result (λ answer. answer ≡ summary_of bytes.now) }
{
    // A kind is a type, chosen here once: no `dyn` can stand for it, since a kind is read before there is a value.
    if claims_order(bytes) {
        summarize_as::<LampOrder>(heap, bytes)
    } else {
        summarize_as::<LampNumber>(heap, bytes)
    }
}

/// Whether the bytes claim the width of a lamp order.
fn claims_order(bytes: &[u8]) -> bool
    ensures { result ≡ claims_order bytes.now }
{
    bytes.get(5) == Some(&LampOrder::width())
}

/// What the bytes say as a letter of this kind.
#[tactic(auto, unfolding(crate::specs::Report::summary_as))]
pub(crate) fn summarize_as<K: Printable>(
    heap: Global,
    bytes: &[u8],
) -> Result<Result<Summary, Refusal>, AllocError>
    ensures { IfOk result (λ answer. answer ≡ summary_as K.Kind.meaning K.shown bytes.now) }
{
    match Letter::<K>::read(bytes) {
        Ok(letter) => Ok(Ok(Summary::new(heap, &letter, bytes)?)),
        Err(fault) => Ok(Err(Refusal::from(fault))),
    }
}

/// Whether writing the letter gives these bytes.
// A function of its own, since `Summary::new` knows the answer and would take any flag that is true for a comparison.
fn gives<K: Kind>(letter: &Letter<K>, bytes: &[u8]) -> bool
    ensures { Decides result (letter_bytes K.meaning letter.now ≡ bytes.now) }
{
    &letter.write()[..] == bytes
}

/// One of two texts, by a flag.
fn in_words(flag: bool, yes: &'static str, no: &'static str) -> &'static str
    ensures { result.now ≡ (if flag then yes.now else no.now) }
{
    if flag { yes } else { no }
}
