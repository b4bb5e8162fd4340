//! How quotes are given and asked.
ghost use Rattle.std.specs.Prelude.{◌≡◌, map, length, replicate, None, slice_set};
ghost use Rattle.account.specs.Checks.{rate_answer};
ghost use Rattle.money.specs.Currencies.{currencies, place};
ghost use Rattle.money.specs.declared.status.Status.TheVariants.{Open};
ghost use Rattle.quotes.specs.Quoted.{rates_in, statuses_in, chosen_rates, quoted_by};
ghost use Rattle.quotes.specs.Rates.{rate_of, missing_in, quote_in, quoted_answer};

use super::Quotes;
use account::check::check_rate;
use account::fault::AccountFault;
use determine::market::Market;
use determine::quote::Quote;
use money::currency::{ALL, COUNT, Currency};
use money::status::Status;

impl Quotes {
    /// No rates, and all currencies open.
    pub fn new() -> Quotes
        ensures rates { rates_in result ≡ replicate (length currencies) None }
        ensures statuses { statuses_in result ≡ replicate (length currencies) Open }
    {
        let nothing = Quote {
            rate: None,
            status: Status::Open,
        };
        Quotes {
            given: [nothing; COUNT],
        }
    }

    /// Gives a currency its rate, in place of the old one; a rate out of range is refused.
    pub fn set_rate(&mut self, currency: Currency, rate: i64) -> Result<(), AccountFault>
        ensures answer { result ≡ rate_answer currency rate }
        ensures rates { rates_in self.new ≡ chosen_rates result (rates_in self.old) currency rate }
        ensures statuses { statuses_in self.new ≡ statuses_in self.old }
    {
        check_rate(currency, rate)?;
        self.given[currency.index()].rate = Some(rate);
        Ok(())
    }

    /// Shuts a currency, or opens it again.
    pub fn set_status(&mut self, currency: Currency, status: Status)
        ensures rates { rates_in self.new ≡ rates_in self.old }
        ensures statuses { statuses_in self.new ≡ slice_set (statuses_in self.old) (place currency) status }
    {
        self.given[currency.index()].status = status;
    }

    /// The first currency in book order that has no rate.
    pub fn missing(&self) -> Option<Currency>
        ensures { result ≡ missing_in (rates_in self.now) }
    {
        ALL.iter()
            .copied()
            .find(|currency| self.rate_of(*currency).is_none())
    }

    /// The market, if every currency has a rate; else the first that has none.
    pub fn market(&self) -> Result<Market, Currency>
        ensures { quoted_by result ≡ quoted_answer (rates_in self.now) (statuses_in self.now) }
    {
        if let Some(currency) = self.missing() {
            return Err(currency);
        }
        Ok(Market::new(self.quoted()).unwrap())
    }

    // The quote of each currency; its rate is 0 where there is none.
    fn quoted(&self) -> [Quote<i64>; COUNT]
        ensures { result ≡ map (quote_in (rates_in self.now) (statuses_in self.now)) currencies }
    {
        ALL.map(|currency| self.quote_of(currency))
    }

    fn quote_of(&self, currency: Currency) -> Quote<i64>
        ensures { result ≡ quote_in (rates_in self.now) (statuses_in self.now) currency }
    {
        let given = self.given[currency.index()];
        Quote {
            rate: given.rate.unwrap_or(0),
            status: given.status,
        }
    }

    fn rate_of(&self, currency: Currency) -> Option<i64>
        ensures { result ≡ rate_of (rates_in self.now) currency }
    {
        self.given[currency.index()].rate
    }
}
