//! What a determination is made from.
ghost use Rattle.std.specs.Prelude.{◌≡◌};
ghost use Rattle.account.specs.Accounts.{figures_in};
ghost use Rattle.determine.specs.Cases.{state_in};

use crate::market::Market;
use crate::position::Position;
use account::held::Account;
use money::currency::Currency;

/// An account, and the market at which it is determined.
#[derive(Clone, Copy)]
pub struct Case {
    pub market: Market,
    pub account: Account,
}

impl Case {
    /// The figures of the account in a currency, and its level.
    pub fn position(&self, currency: Currency) -> Position
        ensures level { result.level ≡ (state_in self.now).level }
        ensures figures { result.figures ≡ figures_in (state_in self.now) currency }
    {
        Position {
            level: self.account.level(),
            figures: self.account.figures(currency),
        }
    }
}
