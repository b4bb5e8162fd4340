//! Accounts.
ghost use Rattle.std.specs.Prelude.{◌≡◌};
ghost use Rattle.account.specs.Amounts.{due_to_house};

use crate::terms::{DebitSetting, Level};
use money::code::Code;
use money::currency::{COUNT, Currency};

/// The figures of an account in one currency, in hundredths.
#[derive(Clone, Copy)]
pub struct Figures {
    pub cash: i64,
    /// The cash collateral limit.
    pub limit: i64,
    /// The cash excess amount.
    pub excess: i64,
    /// The value of collateral that is not cash.
    pub non_cash: i64,
    /// The margin requirement.
    pub requirement: i64,
    /// Open settlement: positive is due to the house.
    pub settlement: i64,
}

impl Figures {
    /// The part of open settlement that is due to the house.
    pub fn due_to_house(self) -> i64
        ensures { result ≡ due_to_house self }
    {
        self.settlement.max(0)
    }
}

/// All figures 0.
pub const NO_FIGURES: Figures = Figures {
    cash: 0,
    limit: 0,
    excess: 0,
    non_cash: 0,
    requirement: 0,
    settlement: 0,
};

/// An account with all its terms and figures; currencies stand in book order.
#[derive(Clone, Copy)]
pub struct AccountState {
    pub code: Code,
    pub optimization: u32,
    pub base: Currency,
    pub level: Level,
    pub setting: DebitSetting,
    pub priority: [Currency; COUNT],
    pub figures: [Figures; COUNT],
}
