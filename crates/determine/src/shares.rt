//! The shares of an account, and whether its calls can be booked.
ghost use Rattle.std.specs.Prelude.{◌≡◌, ◌+ℤ◌};
ghost use Rattle.determination.specs.Determinations.{held_in, amount_in};
ghost use Rattle.money.specs.Currencies.{currencies};
ghost use Rattle.money.specs.Options.{first_of};
ghost use Rattle.determine.specs.Cases.{market_at, state_in};
ghost use Rattle.determine.specs.Listed.{share_of, shares_of, is_past_bound};

use crate::amounts::Amounts;
use crate::case::Case;
use money::currency::{ALL, COUNT, Currency};
use money::range::BOUND;

impl Case {
    /// The share in each currency.
    pub fn shares(&self, calls: &Amounts, repayments: &Amounts) -> [i64; COUNT]
        ensures { result ≡ shares_of (market_at self.now) (state_in self.now) calls.now.list repayments.now.list }
    {
        ALL.map(|currency| self.share_in(currency, calls, repayments))
    }

    /// The first currency whose call would lead past the bound.
    pub fn past_bound(&self, calls: &Amounts) -> Option<Currency>
        ensures { result ≡ first_of (is_past_bound (state_in self.now) calls.now.list) currencies }
    {
        ALL.iter()
            .copied()
            .find(|currency| self.cash_with(*currency, calls) > BOUND)
    }

    #[tactic(auto, unfolding(crate::specs::Listed::share_of))]
    fn share_in(&self, currency: Currency, calls: &Amounts, repayments: &Amounts) -> i64
        ensures { result ≡ share_of (market_at self.now) (state_in self.now) calls.now.list repayments.now.list currency }
    {
        if !self.market.is_open(currency) {
            return 0;
        }
        let due = self.position(currency).due();
        due + calls.of(currency) - repayments.of(currency)
    }

    // Held cash with the call.
    fn cash_with(&self, currency: Currency, calls: &Amounts) -> i64
        ensures { result ≡ held_in (state_in self.now) currency +ℤ amount_in calls.now.list currency }
    {
        self.position(currency).held_cash() + calls.of(currency)
    }
}
