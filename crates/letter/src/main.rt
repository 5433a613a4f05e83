//! Says what one captured letter holds: reads it from standard input and prints the report.
#![tactic(auto)]

use letter_report::report;
use std::io::Read;

/// One byte more than a letter has already tells that there are too many.
const MOST: u64 = 33;

fn main(rt: HostRuntime) -> anyhow::Result<()> {
    let mut bytes = Vec::new(rt.alloc());
    rt.stdin().take(MOST).read_to_end(&mut bytes)?;
    rt.print(report(rt.alloc(), &bytes)?)?;
    Ok(())
}
