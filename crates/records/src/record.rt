//! Records: what an admitted line says.
ghost use Rattle.std.specs.Prelude.{◌≡◌, [], ◌∷◌, ◌++◌, IfOk, Some, string_bytes};
ghost use Rattle.lines.specs.Lines.{ended, written};
ghost use Rattle.money.specs.Codes.{shown_code};
ghost use Rattle.money.specs.Currencies.{letters};
ghost use Rattle.records.specs.Records.{line_of};
ghost use Rattle.records.specs.declared.record.Record.TheVariants.{Opening as OfOpening};
ghost use Rattle.std.specs.Fmt.{WritesOnOk, signed_decimal};

use crate::ending::Choices;
use account::terms::{DebitSetting, Level};
use money::code::Code;
use money::currency::{COUNT, Currency};
use money::status::Status;
use std::alloc::{AllocError, Global};
use std::fmt;

/// The opening of an account.
#[derive(Clone, Copy)]
pub struct Opening {
    pub code: Code,
    /// The number of the optimization account.
    pub number: u32,
    /// The base currency.
    pub base: Currency,
    pub level: Level,
    pub setting: DebitSetting,
    pub priority: [Currency; COUNT],
}

/// What an admitted line says: each of its fields is what it should be.
#[derive(Clone, Copy)]
pub enum Record {
    Rate {
        currency: Currency,
        rate: i64,
    },
    Holiday {
        currency: Currency,
        status: Status,
    },
    Opening(Opening),
    Limits {
        code: Code,
        currency: Currency,
        limit: i64,
        excess: i64,
    },
    Margin {
        code: Code,
        currency: Currency,
        requirement: i64,
        non_cash: i64,
    },
    Deposit {
        code: Code,
        currency: Currency,
        amount: i64,
    },
    Settlement {
        code: Code,
        currency: Currency,
        amount: i64,
    },
    Callback {
        code: Code,
        currency: Currency,
        amount: i64,
    },
}

// The letter, a currency and a figure.
fn write_currency<W: fmt::Write>(
    f: &mut fmt::Formatter<W>,
    letter: &str,
    currency: Currency,
    figure: i64,
) -> fmt::Result
    ensures { WritesOnOk W.Write.write_str_gives f.old result (letter.now ++ ended (letters currency ∷ signed_decimal figure ∷ [])) f.new }
{
    write!(f, "{letter}\t{currency}\t{figure}\n")
}

// The letter, and all that an opening fixes.
fn write_opening<W: fmt::Write>(f: &mut fmt::Formatter<W>, opening: Opening) -> fmt::Result
    ensures { WritesOnOk W.Write.write_str_gives f.old result (written (line_of (OfOpening opening))) f.new }
{
    let Opening {
        code,
        number,
        base,
        level,
        setting,
        priority,
    } = opening;
    let choices = Choices {
        level,
        setting,
        priority,
    };
    write!(f, "A\t{code}\t{number}\t{base}\t{choices}")
}

// The letter, a code, a currency and a figure.
fn write_amount<W: fmt::Write>(
    f: &mut fmt::Formatter<W>,
    letter: &str,
    code: Code,
    currency: Currency,
    amount: i64,
) -> fmt::Result
    ensures { WritesOnOk W.Write.write_str_gives f.old result (letter.now ++ ended (shown_code code ∷ letters currency ∷ signed_decimal amount ∷ [])) f.new }
{
    write!(f, "{letter}\t{code}\t{currency}\t{amount}\n")
}

// The letter, a code, a currency and two figures.
fn write_figures<W: fmt::Write>(
    f: &mut fmt::Formatter<W>,
    letter: &str,
    code: Code,
    currency: Currency,
    first: i64,
    second: i64,
) -> fmt::Result
    ensures { WritesOnOk W.Write.write_str_gives f.old result (letter.now ++ ended (shown_code code ∷ letters currency ∷ signed_decimal first ∷ signed_decimal second ∷ [])) f.new }
{
    write!(f, "{letter}\t{code}\t{currency}\t{first}\t{second}\n")
}

/// The line of the record, with its line feed.
impl fmt::Display for Record {
    ghost output = { λ r. Some (written (line_of r)) };

    fn fmt<W: fmt::Write>(&self, f: &mut fmt::Formatter<W>) -> fmt::Result {
        match *self {
            Record::Rate { currency, rate } => write_currency(f, "R", currency, rate),
            Record::Holiday { currency, status } => {
                write_currency(f, "H", currency, i64::from(status))
            }
            Record::Opening(opening) => write_opening(f, opening),
            Record::Limits {
                code,
                currency,
                limit,
                excess,
            } => write_figures(f, "L", code, currency, limit, excess),
            Record::Margin {
                code,
                currency,
                requirement,
                non_cash,
            } => write_figures(f, "M", code, currency, requirement, non_cash),
            Record::Deposit {
                code,
                currency,
                amount,
            } => write_amount(f, "D", code, currency, amount),
            Record::Settlement {
                code,
                currency,
                amount,
            } => write_amount(f, "S", code, currency, amount),
            Record::Callback {
                code,
                currency,
                amount,
            } => write_amount(f, "B", code, currency, amount),
        }
    }
}

/// The line of a record.
pub fn write_line(heap: Global, line: &Record) -> Result<String, AllocError>
    ensures { IfOk result (λ t. string_bytes t ≡ written (line_of line.now)) }
{
    format!(in heap; "{line}")
}
