//! Answers many letters, one line each, so that the answers can be compared with a second program's.
//! Standard input has a letter a line, in hexadecimal.
#![tactic(auto)]

mod hex;

use anyhow::anyhow;
use hex::decode;
use letter_report::brief;
use std::io::{BufRead, BufReader};

fn main(rt: HostRuntime) -> anyhow::Result<()> {
    let heap = rt.alloc();
    for line in BufReader::new(heap, rt.stdin())?.lines(heap) {
        let line = line?;
        let Some(bytes) = decode(heap, line.as_bytes())? else {
            return Err(anyhow!("a line is not hexadecimal"));
        };
        rt.println(brief(heap, &bytes)?)?;
    }
    Ok(())
}
