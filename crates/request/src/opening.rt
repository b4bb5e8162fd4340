//! The terms of an account as its opening gives them.
use account::priority::Priority;
use account::terms::{DebitSetting, Level};
use money::currency::Currency;

mod calls;

/// The terms that an opening fixes, each what it should be.
#[derive(Clone, Copy)]
pub struct Terms {
    /// The number of the optimization account.
    pub number: u32,
    /// The base currency.
    pub base: Currency,
    pub level: Level,
    pub setting: DebitSetting,
    pub priority: Priority,
}
