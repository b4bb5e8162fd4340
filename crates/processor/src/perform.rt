//! Sheets performed on a book.
ghost use Rattle.std.specs.Prelude.{◌≡◌, ◌++◌, IfOk, string_bytes, OnOk};
ghost use Rattle.history.specs.States.{new_state};
ghost use Rattle.lines.specs.Faults.{told};
ghost use Rattle.money.specs.Refusals.{refusal_of};
ghost use Rattle.processor.specs.Laws.{SheetLaw};
ghost use Rattle.processor.specs.Performances.{answer, after, printed, Performed, transcribed};
ghost use Rattle.processor.specs.Processors.{state_of};
ghost use Rattle.processor.specs.Sheets.{sheet_of};
ghost use Rattle.text.specs.Rows.{rows};

use crate::print::{print_refusal, sheet_of};
use book::book::Book;
use lines::fault::SheetFault;
use lines::form::form;
use std::alloc::{AllocError, Global};
use text::row::Lines;
use valuation::valuation::Valuation;

/// The number of the book that a sheet is performed on. It is never printed.
const BOOK: u32 = 1;

/// Performs lines on a book of its own.
#[derive(Drop)]
pub struct Processor<V> {
    book: Book<V>,
}

impl<V: Drop> Processor<V> {
    /// A processor with a new book under the valuation.
    pub fn new(heap: Global, valuation: V) -> Result<Self, AllocError>
        ensures { IfOk result (λ p. state_of p ≡ new_state 1) }
    {
        Ok(Processor {
            book: Book::new(heap, BOOK, valuation)?,
        })
    }
}

impl<V: Valuation> Processor<V> {
    /// Performs one line, which holds its line feed. A refused line leaves the book as it was.
    #[tactic(auto, using(crate::proofs::Ordered::ordered_meant))]
    pub fn perform(&mut self, line: &[u8]) -> Result<(), SheetFault>
        ensures answer { refusal_of told result ≡ answer V.meaning (state_of self.old) line.now }
        ensures after { state_of self.new ≡ after V.meaning (state_of self.old) line.now }
        ensures admitted { Performed line.now result }
    {
        let order = form(line)?;
        self.book.perform(order)?;
        Ok(())
    }

    // Performs one line, and prints its refusal if it has one.
    fn tell(&mut self, number: usize, line: &[u8], out: &mut String) -> Result<(), AllocError>
        ensures text { OnOk result (string_bytes out.new ≡ string_bytes out.old ++ printed number (answer V.meaning (state_of self.old) line.now)) }
        ensures after { state_of self.new ≡ after V.meaning (state_of self.old) line.now }
    {
        if let Err(fault) = self.perform(line) {
            return print_refusal(out, number, fault.refusal());
        }
        Ok(())
    }
}

/// What is printed of an input: its sheet is performed on a new book under the valuation.
pub fn transcript<V: Valuation + Drop>(
    heap: Global,
    valuation: V,
    input: &[u8],
) -> Result<String, AllocError>
    ensures law { SheetLaw V.meaning (new_state 1) (rows (sheet_of input.now)) }
    ensures text { IfOk result (λ t. string_bytes t ≡ transcribed V.meaning input.now) }
{
    let mut out = String::new(heap);
    let mut processor = Processor::new(heap, valuation)?;
    for (at, line) in Lines::of(sheet_of(input)).enumerate() {
        processor.tell(at + 1, line, &mut out)?;
    }
    Ok(out)
}
