//! Sheets checked line by line, with no book.
ghost use Rattle.std.specs.Prelude.{◌≡◌, ◌++◌, IfOk, string_bytes, OnOk};
ghost use Rattle.processor.specs.Checks.{noted, checked};

use crate::print::{print_refusal, sheet_of};
use records::admission::read_line;
use std::alloc::{AllocError, Global};
use std::fmt::Write;
use text::row::Lines;

// Writes an admitted line as its record does, and the refusal of any other.
fn note(number: usize, line: &[u8], out: &mut String) -> Result<(), AllocError>
    ensures { OnOk result (string_bytes out.new ≡ string_bytes out.old ++ noted number line.now) }
{
    match read_line(line) {
        Ok(record) => write!(out, "{record}"),
        Err(fault) => print_refusal(out, number, fault.refusal()),
    }
}

/// What is printed of an input whose sheet is only checked: each admitted line as it is,
/// and for every other what the line alone is refused for.
pub fn check_sheet(heap: Global, input: &[u8]) -> Result<String, AllocError>
    ensures { IfOk result (λ t. string_bytes t ≡ checked input.now) }
{
    let mut out = String::new(heap);
    for (at, line) in Lines::of(sheet_of(input)).enumerate() {
        note(at + 1, line, &mut out)?;
    }
    Ok(out)
}
