//! Performs the sheet on standard input, and prints what it did.
#![tactic(auto)]

use processor::perform::transcript;
use processor::print::LIMIT;
use std::io::Read;
use valuation::flat_charge::FlatCharge;

fn main(rt: HostRuntime) -> anyhow::Result<()> {
    let mut input = Vec::new(rt.alloc());
    rt.stdin().take(LIMIT as u64).read_to_end(&mut input)?;
    let text = transcript(rt.alloc(), FlatCharge, input.as_slice())?;
    Ok(rt.print(text)?)
}
