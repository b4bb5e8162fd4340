//! The terms of an account that are fixed at its opening.
ghost use Rattle.std.specs.Prelude.{◌≡◌};
ghost use Rattle.std.specs.Option.{ok_or};
ghost use Rattle.account.specs.Terms.{level_number, level_of, setting_number, setting_of};

use money::unknown::Unknown;

/// On which account the amounts of a margin account are summed up, with the number of the level.
#[derive(Clone, Copy, PartialEq, Eq)]
pub enum Level {
    /// Level 1: the margin requirement account. Its own cash covers what it owes first.
    MarginRequirement = 1,
    /// Level 2: the cash optimization account.
    CashOptimization = 2,
}

/// In which currency a deficiency is called, with the number of the setting.
#[derive(Clone, Copy, PartialEq, Eq)]
pub enum DebitSetting {
    /// Setting 1: in the currencies of the deficiency, by priority.
    MarginCurrency = 1,
    /// Setting 2: in the base currency.
    BaseCurrency = 2,
}

/// The level of a number, if it is 1 or 2.
impl TryFrom<i64> for Level {
    type Error = Unknown;

    ghost try_from_gives = { λ number r. r ≡ ok_or (level_of number) (record { 0 = number }) };

    fn try_from(number: i64) -> Result<Level, Unknown> {
        match number {
            1 => Ok(Level::MarginRequirement),
            2 => Ok(Level::CashOptimization),
            _ => Err(Unknown(number)),
        }
    }
}

/// The number of a level.
impl From<Level> for i64 {
    ghost from_gives = { λ level r. r ≡ level_number level };

    fn from(level: Level) -> i64 {
        level as i64
    }
}

/// The setting of a number, if it is 1 or 2.
impl TryFrom<i64> for DebitSetting {
    type Error = Unknown;

    ghost try_from_gives = { λ number r. r ≡ ok_or (setting_of number) (record { 0 = number }) };

    fn try_from(number: i64) -> Result<DebitSetting, Unknown> {
        match number {
            1 => Ok(DebitSetting::MarginCurrency),
            2 => Ok(DebitSetting::BaseCurrency),
            _ => Err(Unknown(number)),
        }
    }
}

/// The number of a setting.
impl From<DebitSetting> for i64 {
    ghost from_gives = { λ setting r. r ≡ setting_number setting };

    fn from(setting: DebitSetting) -> i64 {
        setting as i64
    }
}
