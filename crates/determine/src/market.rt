//! Rates, and which currencies are open.
ghost use Rattle.std.specs.Prelude.{◌≡◌, true};
ghost use Rattle.determine.specs.Rates.{are_rates};

use crate::quote::Quote;
use money::currency::COUNT;

mod calls;

/// The quote of each currency, in book order. Every rate lies in its range; no other market can be made.
#[derive(Clone, Copy)]
pub struct Market {
    quotes: [Quote<i64>; COUNT],
    ghost rated: { are_rates quotes ≡ true },
}
