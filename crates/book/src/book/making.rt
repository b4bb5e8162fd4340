//! Making a book.
ghost use Rattle.std.specs.Prelude.{◌≡◌, IfOk};
ghost use Rattle.book.specs.Books.{meaning};
ghost use Rattle.history.specs.States.{new_state};

use super::{Accounts, Book, MOST_ACCOUNTS, MOST_NUMBERS};
use quotes::quotes::Quotes;
use std::alloc::{AllocError, Global};

impl<V: Drop> Book<V> {
    /// A book with no accounts, no rates and all currencies open. Nothing after its making can want memory.
    pub fn new(heap: Global, number: u32, valuation: V) -> Result<Self, AllocError>
        ensures meaning { IfOk result (λ b. meaning b ≡ new_state number) }
        ensures valued { IfOk result (λ b. b.valuation ≡ valuation) }
    {
        let codes = Vec::with_capacity(heap, MOST_ACCOUNTS)?;
        let rows = Vec::with_capacity(heap, MOST_ACCOUNTS)?;
        let numbers = Vec::with_capacity(heap, MOST_NUMBERS)?;
        let optimizations = Vec::with_capacity(heap, MOST_NUMBERS)?;
        Ok(Book {
            number,
            valuation,
            quotes: Quotes::new(),
            codes,
            accounts: Accounts { rows },
            numbers,
            optimizations,
            running: None,
            runs: 0,
        })
    }
}
