//! Through the currencies of an account by priority: what is called or repaid in each.
ghost use Rattle.std.specs.Prelude.{◌≡◌, map, ℤ};
ghost use Rattle.determination.specs.Calls.{call_at, repayment_at};
ghost use Rattle.determination.specs.Determinations.{balance_in, room_in};
ghost use Rattle.determination.specs.Walks.{rest_at_end, taken};
ghost use Rattle.money.specs.declared.currency.Currency.{Currency};
ghost use Rattle.money.specs.Currencies.{currencies};
ghost use Rattle.determine.specs.Cases.{market_at, state_in};
ghost use Rattle.determine.specs.Payments.{Turned, EachTurned, Takes};
ghost use Rattle.determine.specs.Sizes.{EachFew};

use crate::case::Case;
use crate::points::Points;
use money::currency::{COUNT, Currency};

impl Case {
    /// What rests of the points at the end, and what is taken in each currency.
    pub fn walk<F: Fn(Points, Currency) -> i64>(
        &self,
        points: Points,
        take: F,
    ) -> (Points, [i64; COUNT])
        requires callable { F.IsAlwaysCallable take }
        requires turned { EachTurned (F.post take) (market_at self.now) }
        ensures rest { (t : ℤ → Currency → ℤ) → Takes (F.post take) t → result.0.count ≡ rest_at_end t (market_at self.now).rate (state_in self.now).priority points.count }
        ensures taken { (t : ℤ → Currency → ℤ) → Takes (F.post take) t → result.1 ≡ map (taken t (market_at self.now).rate (state_in self.now).priority points.count) currencies }
        ensures few { EachFew result.1 }
    {
        let mut rest = points;
        let mut amounts = [0; COUNT];
        for currency in self.account.priority() {
            let amount = take(rest, currency);
            amounts[currency.index()] = amount;
            rest = rest.less(amount * self.market.rate(currency));
        }
        (rest, amounts)
    }

    /// What is called in a currency while so many points rest.
    pub fn call_at(&self, rest: Points, currency: Currency) -> i64
        ensures answer { result ≡ call_at (market_at self.now) (balance_in (state_in self.now)) rest.count currency }
        ensures turned { Turned rest.count ((market_at self.now).rate currency) result }
    {
        if !self.market.is_open(currency) {
            return 0;
        }
        let short = (-self.position(currency).balance()).max(0);
        short.min(rest.rounded_up(self.market.rate(currency)))
    }

    /// What is repaid in a currency while so many points rest.
    pub fn repayment_at(&self, rest: Points, currency: Currency) -> i64
        ensures answer { result ≡ repayment_at (market_at self.now) (balance_in (state_in self.now)) (room_in (state_in self.now)) rest.count currency }
        ensures turned { Turned rest.count ((market_at self.now).rate currency) result }
    {
        if !self.market.is_open(currency) {
            return 0;
        }
        let position = self.position(currency);
        let free = position.balance().min(position.room());
        free.min(rest.rounded_down(self.market.rate(currency)))
            .max(0)
    }
}
