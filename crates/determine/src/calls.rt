//! What is called from an account, and what is repaid.
ghost use Rattle.std.specs.Prelude.{◌≡◌, ◌∷◌, map, ◌+ℤ◌};
ghost use Rattle.determination.specs.Calls.{all_called_in};
ghost use Rattle.determination.specs.Determinations.{amount_in};
ghost use Rattle.money.specs.Currencies.{currencies};
ghost use Rattle.money.specs.Options.{first_of};
ghost use Rattle.determine.specs.Cases.{market_at, state_in};
ghost use Rattle.determine.specs.Listed.{calls_by_margin, calls_in_base, calls_for, repayments_by};
ghost use Rattle.determine.specs.Sizes.{EachFew};

use crate::amounts::Amounts;
use crate::case::Case;
use crate::points::Points;
use account::terms::DebitSetting;
use money::currency::{COUNT, Currency};

impl Case {
    /// What is called where so many points are short.
    pub fn calls(&self, short: Points) -> Amounts
        ensures { result.list ≡ calls_for (state_in self.now).setting (market_at self.now) (state_in self.now) short.count }
    {
        match self.account.setting() {
            DebitSetting::MarginCurrency => self.calls_by_margin(short),
            DebitSetting::BaseCurrency => self.calls_in_base(short),
        }
    }

    /// What is repaid where so many points are over.
    pub fn repayments(&self, over: Points) -> Amounts
        ensures { result.list ≡ repayments_by (market_at self.now) (state_in self.now) over.count }
    {
        let (_, list) = self.walk(over, |rest, currency| self.repayment_at(rest, currency));
        Amounts { list }
    }

    fn calls_by_margin(&self, short: Points) -> Amounts
        ensures { result.list ≡ calls_by_margin (market_at self.now) (state_in self.now) short.count }
    {
        let (rest, calls) = self.walk(short, |rest, currency| self.call_at(rest, currency));
        self.call_besides(calls, self.first_open(), rest)
    }

    fn calls_in_base(&self, short: Points) -> Amounts
        ensures { result.list ≡ calls_in_base (market_at self.now) (state_in self.now) short.count }
    {
        self.call_besides([0; COUNT], self.base_or_first_open(), short)
    }

    fn base_or_first_open(&self) -> Option<Currency>
        ensures { result ≡ first_of (market_at self.now).is_open ((state_in self.now).base ∷ (state_in self.now).priority) }
    {
        let base = self.account.base();
        if self.market.is_open(base) {
            Some(base)
        } else {
            self.first_open()
        }
    }

    fn first_open(&self) -> Option<Currency>
        ensures { result ≡ first_of (market_at self.now).is_open (state_in self.now).priority }
    {
        let order = self.account.priority();
        order
            .iter()
            .copied()
            .find(|currency| self.market.is_open(*currency))
    }

    // The calls with all points in one currency besides, if there is one.
    fn call_besides(
        &self,
        mut calls: [i64; COUNT],
        first: Option<Currency>,
        points: Points,
    ) -> Amounts
        requires { EachFew calls }
        ensures { result.list ≡ map (λ c. amount_in calls c +ℤ all_called_in (market_at self.now) first points.count c) currencies }
    {
        let Some(currency) = first else {
            return Amounts { list: calls };
        };
        calls[currency.index()] += points.rounded_up(self.market.rate(currency));
        Amounts { list: calls }
    }
}
