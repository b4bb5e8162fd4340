//! What is called or repaid.
ghost use Rattle.std.specs.Prelude.{◌≡◌};
ghost use Rattle.determination.specs.Determinations.{amount_in};
ghost use Rattle.determine.specs.Sizes.{Small, EachSmall};

use money::currency::{COUNT, Currency};

/// An amount for each currency, in book order, none below 0 and none so large that two would not add up.
#[derive(Clone, Copy)]
pub struct Amounts {
    pub list: [i64; COUNT],
    ghost small: { EachSmall list },
}

impl Amounts {
    /// The amount in a currency.
    pub fn of(&self, currency: Currency) -> i64
        ensures answer { result ≡ amount_in self.now.list currency }
        ensures small { Small result }
    {
        self.list[currency.index()]
    }
}
