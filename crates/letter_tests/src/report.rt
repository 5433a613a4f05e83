//! The report on bytes of both kinds, and on bytes that are no letter.
use crate::base::{NUMBER, ORDER};
use letter_report::report;
use std::process::Abort;
use std::test::Fail;

/// The report on the bytes is this text.
fn check_report(rt: &(impl Abort + AllocGlobal), bytes: &[u8], expected: &str) -> Result<(), Fail> {
    let text = report(rt.alloc(), bytes)?;
    assert_eq!(rt; text.as_str(), expected);
    Ok(())
}

#[test]
fn letters_of_both_kinds(rt: HostRuntime) -> Result<(), Fail> {
    check_report(
        &rt,
        &NUMBER,
        "read 32 bytes\ntype PREPARE\ngroup of 4\nsender 2\nleader 1\napproved yes\nwidth 1\nround 5\ntimestamp 3\nestimate 7\nwritten again: the same 32 bytes\n",
    )?;
    check_report(
        &rt,
        &ORDER,
        "read 32 bytes\ntype PREPARE\ngroup of 4\nsender 2\nleader 1\napproved yes\nwidth 6\nround 5\ntimestamp 3\nestimate 5/3/Fl(2)100\nwritten again: the same 32 bytes\n",
    )
}

#[test]
fn bytes_that_are_no_letter(rt: HostRuntime) -> Result<(), Fail> {
    let mut strange = ORDER;
    strange[5] = 2;
    let mut unreadable = ORDER;
    unreadable[17] = 13;
    check_report(&rt, &[], "read 0 bytes\nrefused 5 32\n")?;
    check_report(&rt, &[6; 33], "read 33 bytes\nrefused 5 32\n")?;
    check_report(&rt, &[0; 32], "read 32 bytes\nrefused 5 0\n")?;
    // No kind has this width: the letter is read as a lamp number's, and refused there.
    check_report(&rt, &strange, "read 32 bytes\nrefused 5 5\n")?;
    check_report(&rt, &unreadable, "read 32 bytes\nrefused 11 1\n")
}
