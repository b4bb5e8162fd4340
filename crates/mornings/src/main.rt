//! Performs each sheet that is named as an argument on a book of its own, and prints its name and what it did.
#![tactic(auto)]

use processor::perform::transcript;
use std::{env, fs};
use valuation::flat_charge::FlatCharge;

fn show(rt: &HostRuntime, name: &str) -> anyhow::Result<()> {
    let input = fs::read(rt, name)?;
    let text = transcript(rt.alloc(), FlatCharge, input.as_slice())?;
    println!(rt; "== {name}")?;
    Ok(rt.print(text)?)
}

fn main(rt: HostRuntime) -> anyhow::Result<()> {
    for name in env::args(&rt)?.skip(1) {
        show(&rt, name.as_str())?;
    }
    Ok(())
}

#[cfg(test)]
mod tests {
    use super::*;
    use std::alloc::{AllocError, Global};
    use std::test::Fail;

    // What is printed of a sheet of holiday lines, 8 bytes each, with a last line.
    fn told(heap: Global, lines: usize, last: &[u8]) -> Result<String, AllocError> {
        let mut input = Vec::new(heap);
        for _ in 0..lines {
            input.extend_from_slice(b"H\tEUR\t0\n")?;
        }
        input.extend_from_slice(last)?;
        transcript(heap, FlatCharge, input.as_slice())
    }

    #[test]
    fn first_65536_bytes_count(rt: HostRuntime) -> Result<(), Fail> {
        let whole = told(rt.alloc(), 8191, b"H\tEUR\t2\n")?;
        assert_eq!(rt;
            whole.as_str(),
            "X 8192 account 12 - EUR\n",
            "the last line that counts"
        );
        let past = told(rt.alloc(), 8192, b"H\tEUR\t2\n")?;
        assert_eq!(rt; past.as_str(), "", "a line past the end leaves no trace");
        let cut = told(rt.alloc(), 8191, b"R\tEUR\t10\n")?;
        assert_eq!(rt;
            cut.as_str(),
            "X 8192 sheet 1 - -\n",
            "a line cut there has no line feed"
        );
        Ok(())
    }
}
