//! Checks the lines of the sheet on standard input, and performs none.
#![tactic(auto)]

use processor::check::check_sheet;
use processor::print::LIMIT;
use std::io::Read;

fn main(rt: HostRuntime) -> anyhow::Result<()> {
    let mut input = Vec::new(rt.alloc());
    rt.stdin().take(LIMIT as u64).read_to_end(&mut input)?;
    let text = check_sheet(rt.alloc(), input.as_slice())?;
    Ok(rt.print(text)?)
}
