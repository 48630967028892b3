//! Reads an update text from standard input, and prints the pairs that are kept at its end.
#![tactic(auto)]

use feeding::TEXT_LIMIT;
use listing::report;
use std::io::Read;

/// One byte more than an update text may have, so that a longer one is seen to be too long.
const MOST: u64 = TEXT_LIMIT as u64 + 1;

fn main(rt: HostRuntime) -> anyhow::Result<()> {
    run(&rt)
}

fn run(rt: &HostRuntime) -> anyhow::Result<()> {
    let mut text = Vec::new(rt.alloc());
    rt.stdin().take(MOST).read_to_end(&mut text)?;
    rt.print(report(rt.alloc(), &text)?)?;
    Ok(())
}
