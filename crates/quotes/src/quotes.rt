//! Rates as they come in, and which currencies are open.
ghost use Rattle.std.specs.Prelude.{◌≡◌, true};
ghost use Rattle.quotes.specs.Given.{rates_of};
ghost use Rattle.quotes.specs.Rates.{are_quotes};

use determine::quote::Quote;
use money::currency::COUNT;

mod calls;

/// What was given of each currency, in book order. Every rate lies in its range.
#[derive(Clone, Copy)]
pub struct Quotes {
    given: [Quote<Option<i64>>; COUNT],
    ghost rated: { are_quotes (rates_of given) ≡ true },
}
