//! What the bytes of one letter hold, in words: line by line for a person, or in one line for a comparison.
#![tactic(auto)]

ghost use Rattle.std.specs.Prelude.{◌≡◌, IfOk, string_bytes};
ghost use Rattle.letter_report.specs.Report.{report, brief};

mod summary;

use std::alloc::{AllocError, Global};
use summary::{Line, Lines, summarize};

/// What the bytes hold, each field on a line, and that writing gives the same bytes. They are read for the kind whose width
/// they claim; any width but a lamp order's is read as a lamp number's. Fails only for want of memory.
pub fn report(heap: Global, bytes: &[u8]) -> Result<String, AllocError>
    ensures { IfOk result (λ s. string_bytes s ≡ report bytes.now) }
{
    let count = bytes.len();
    match summarize(heap, bytes)? {
        Ok(summary) => format!(in heap; "read {count} bytes\n{}", Lines(&summary)),
        Err(refusal) => format!(in heap; "read {count} bytes\n{refusal}\n"),
    }
}

/// The fields of the letter that the bytes hold in one line, or the refusal, for the kind whose width they claim.
/// Fails only for want of memory.
pub fn brief(heap: Global, bytes: &[u8]) -> Result<String, AllocError>
    ensures { IfOk result (λ s. string_bytes s ≡ brief bytes.now) }
{
    match summarize(heap, bytes)? {
        Ok(summary) => format!(in heap; "{}", Line(&summary)),
        Err(refusal) => format!(in heap; "{refusal}"),
    }
}
