//! What is printed.
ghost use Rattle.std.specs.Prelude.{◌≡◌, ◌++◌, string_bytes, OnOk};
ghost use Rattle.money.specs.Refusals.{told};
ghost use Rattle.processor.specs.Prints.{shown_refusal};
ghost use Rattle.processor.specs.Sheets.{sheet_of};

use money::refusal::Refusal;
use std::alloc::AllocError;
use std::fmt::Write;

/// The most bytes of a sheet that are looked at.
pub const LIMIT: usize = 65_536;

/// What is looked at of an input: its first 65,536 bytes.
#[tactic(auto, using(std::proofs::lemmas::List::take_min), unfolding(crate::specs::Sheets::sheet_of))]
pub fn sheet_of(input: &[u8]) -> &[u8]
    ensures { result.now ≡ sheet_of input.now }
{
    &input[..LIMIT.min(input.len())]
}

/// Writes the line of a refusal: `X`, the number of the line, and what the refusal tells.
pub fn print_refusal(out: &mut String, line: usize, refusal: Refusal) -> Result<(), AllocError>
    ensures { OnOk result (string_bytes out.new ≡ string_bytes out.old ++ shown_refusal line (told refusal)) }
{
    write!(out, "X {line} {refusal}\n")
}
