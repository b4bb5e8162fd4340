//! What the amounts of an account are worth, under a valuation.
ghost use Rattle.std.specs.Prelude.{◌≡◌, ℤ, ◌*ℤ◌};
ghost use Rattle.account.specs.Answers.{state_of};
ghost use Rattle.determination.specs.Determinations.{total};
ghost use Rattle.determination.specs.Standings.{standing};
ghost use Rattle.determination.specs.Valuations.{worth};
ghost use Rattle.money.specs.declared.currency.Currency.{Currency};
ghost use Rattle.money.specs.Currencies.{currencies};
ghost use Rattle.valuation.specs.Laws.{InRange};
ghost use Rattle.determine.specs.Cases.{market_at, state_in};
ghost use Rattle.determine.specs.Markets.{market_in};
ghost use Rattle.determine.specs.Points.{OnePoints, AllPoints};
ghost use Rattle.determine.specs.Worths.{EachInRange, Gives};

use crate::case::Case;
use crate::market::Market;
use account::held::Account;
use money::currency::{ALL, Currency};
use valuation::valuation::Valuation;

/// The total: what the balances are worth.
pub fn total<V: Valuation>(valuation: &V, market: &Market, account: &Account) -> i64
    ensures answer { result ≡ total V.meaning (market_in market.now) (state_of account.now) }
    ensures small { AllPoints result }
{
    let case = Case {
        market: *market,
        account: *account,
    };
    case.worth(valuation, |currency| case.position(currency).balance())
}

/// Where an account stands.
pub fn standing<V: Valuation>(valuation: &V, market: &Market, account: &Account) -> i64
    ensures { result ≡ standing V.meaning (market_in market.now) (state_of account.now) }
{
    let case = Case {
        market: *market,
        account: *account,
    };
    case.worth(valuation, |currency| {
        case.account.standing_amount(currency)
    })
}

impl Case {
    // What the amounts that a function gives are worth.
    fn worth<V: Valuation, F: Fn(Currency) -> i64>(&self, valuation: &V, amount: F) -> i64
        requires callable { F.IsAlwaysCallable amount }
        requires ranged { EachInRange (F.post amount) }
        ensures answer { (t : Currency → ℤ) → Gives (F.post amount) t → result ≡ worth V.meaning (market_at self.now) (state_in self.now).base t currencies }
        ensures small { AllPoints result }
    {
        let mut sum = 0;
        for currency in ALL {
            sum += self.points(valuation, currency, amount(currency));
        }
        sum
    }

    fn points<V: Valuation>(&self, valuation: &V, currency: Currency, amount: i64) -> i64
        requires { InRange amount }
        ensures answer { result ≡ V.meaning.counts (state_in self.now).base currency amount *ℤ (market_at self.now).rate currency }
        ensures small { OnePoints result }
    {
        valuation.counted(self.account.base(), currency, amount) * self.market.rate(currency)
    }
}
