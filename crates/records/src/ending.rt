//! How the last fields of an opening are written.
ghost use Rattle.account.specs.Priorities.{letters_all};
ghost use Rattle.records.specs.Endings.{choices_ended};
ghost use Rattle.std.specs.Prelude.{Some};
ghost use Rattle.std.specs.Fmt.{WritesOnOk};

use account::terms::{DebitSetting, Level};
use money::currency::{COUNT, Currency};
use std::fmt;

/// Currencies whose letters are written one after another.
#[derive(Clone, Copy)]
struct Letters([Currency; COUNT]);

/// The level, the setting and the priority of an opening, which end its line.
#[derive(Clone, Copy)]
pub struct Choices {
    pub level: Level,
    pub setting: DebitSetting,
    pub priority: [Currency; COUNT],
}

fn write_letters<W: fmt::Write>(order: &[Currency; COUNT], f: &mut fmt::Formatter<W>) -> fmt::Result
    ensures { WritesOnOk W.Write.write_str_gives f.old result (letters_all order.now) f.new }
{
    for currency in order {
        write!(f, "{currency}")?;
    }
    Ok(())
}

impl fmt::Display for Letters {
    ghost output = { λ o. Some (letters_all o.0) };

    fn fmt<W: fmt::Write>(&self, f: &mut fmt::Formatter<W>) -> fmt::Result {
        write_letters(&self.0, f)
    }
}

impl fmt::Display for Choices {
    ghost output = { λ x. Some (choices_ended x) };

    fn fmt<W: fmt::Write>(&self, f: &mut fmt::Formatter<W>) -> fmt::Result {
        let level = i64::from(self.level);
        let setting = i64::from(self.setting);
        let letters = Letters(self.priority);
        write!(f, "{level}\t{setting}\t{letters}\n")
    }
}
