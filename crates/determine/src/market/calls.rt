//! How a market is made and asked.
ghost use Rattle.std.specs.Prelude.{◌≡◌};
ghost use Rattle.std.specs.Option.{option_map};
ghost use Rattle.determine.specs.Markets.{market_in};
ghost use Rattle.money.specs.Options.{every};
ghost use Rattle.determine.specs.Rates.{is_rated, IsRate, market_answer};

use super::Market;
use crate::quote::Quote;
use money::currency::{COUNT, Currency};
use money::range::RATE;
use money::status::Status;

impl Market {
    /// The market of these quotes, in book order; none where a rate is out of range.
    pub fn new(quotes: [Quote<i64>; COUNT]) -> Option<Market>
        ensures { option_map market_in result ≡ market_answer quotes }
    {
        if are_in_range(&quotes) {
            Some(Market { quotes })
        } else {
            None
        }
    }

    /// The rate of a currency.
    pub fn rate(&self, currency: Currency) -> i64
        ensures answer { result ≡ (market_in self.now).rate currency }
        ensures ranged { IsRate result }
    {
        self.quotes[currency.index()].rate
    }

    /// Whether payments are made in a currency today.
    pub fn is_open(&self, currency: Currency) -> bool
        ensures { result ≡ (market_in self.now).is_open currency }
    {
        matches!(self.quotes[currency.index()].status, Status::Open)
    }
}

fn are_in_range(quotes: &[Quote<i64>; COUNT]) -> bool
    ensures { result ≡ every is_rated quotes.now }
{
    quotes.iter().all(|quote| RATE.holds(quote.rate))
}
