//! Which lines are admitted, and what they say.
ghost use Rattle.std.specs.Prelude.{◌≡◌};
ghost use Rattle.lines.specs.Faults.{told};
ghost use Rattle.lines.specs.Lines.{rate as rate_line, holiday as holiday_line, limits as limits_line, margin as margin_line, deposit as deposit_line, settlement as settlement_line, callback as callback_line};
ghost use Rattle.money.specs.Codes.{code_of};
ghost use Rattle.money.specs.Currencies.{currency_of};
ghost use Rattle.money.specs.Refusals.{refusal_of};
ghost use Rattle.records.specs.Admissions.{barred, opening_line, OrderRecord, Exactly};
ghost use Rattle.records.specs.Records.{names_by, record_of, barred_for};
ghost use Rattle.request.specs.Faults.{told as told_by_book};
ghost use Rattle.std.specs.Result.{result_ok};

use crate::record::{self, Record};
use account::check::{check, check_figures, check_rate, read_status};
use lines::fault::SheetFault;
use lines::form::form;
use money::code::Code;
use money::currency::Currency;
use money::range::{PAYMENT, SETTLEMENT};
use request::fault::BookFault;
use request::opening::Terms;
use request::order::{Opening, Order};
use request::subject::Subject;

fn rate_record(currency: &[u8], rate: i64) -> Result<Record, BookFault>
    ensures answer { refusal_of told_by_book result ≡ barred_for (rate_line currency.now rate) }
    ensures value { result_ok result ≡ record_of (rate_line currency.now rate) }
{
    let currency = Subject::of_currency(currency).known_currency()?;
    check_rate(currency, rate)?;
    Ok(Record::Rate { currency, rate })
}

fn holiday_record(currency: &[u8], flag: i64) -> Result<Record, BookFault>
    ensures answer { refusal_of told_by_book result ≡ barred_for (holiday_line currency.now flag) }
    ensures value { result_ok result ≡ record_of (holiday_line currency.now flag) }
{
    let currency = Subject::of_currency(currency).known_currency()?;
    let status = read_status(currency, flag)?;
    Ok(Record::Holiday { currency, status })
}

fn opening_record(opening: Opening<'_>) -> Result<Record, BookFault>
    ensures answer { refusal_of told_by_book result ≡ barred_for (opening_line opening.entry) }
    ensures value { result_ok result ≡ record_of (opening_line opening.entry) }
{
    let subject = Subject::read(opening.code, opening.base);
    let code = subject.known_code()?;
    let terms = Terms::read(
        subject,
        opening.number,
        opening.level,
        opening.setting,
        opening.priority,
    )?;
    Ok(Record::Opening(record::Opening {
        code,
        number: terms.number,
        base: terms.base,
        level: terms.level,
        setting: terms.setting,
        priority: terms.priority.order(),
    }))
}

// The code and the currency that a line names.
fn names(code: &[u8], currency: &[u8]) -> Result<(Code, Currency), BookFault>
    ensures { result ≡ names_by (code_of code.now) (currency_of currency.now) }
{
    let subject = Subject::read(code, currency);
    Ok((subject.known_code()?, subject.known_currency()?))
}

#[tactic(auto, using(crate::proofs::FieldLaws::not_both))]
fn limits_record(code: &[u8], currency: &[u8], limit: i64, excess: i64) -> Result<Record, BookFault>
    ensures answer { refusal_of told_by_book result ≡ barred_for (limits_line code.now currency.now limit excess) }
    ensures value { result_ok result ≡ record_of (limits_line code.now currency.now limit excess) }
{
    let (code, currency) = names(code, currency)?;
    check_figures(Some(code), currency, limit, excess)?;
    Ok(Record::Limits {
        code,
        currency,
        limit,
        excess,
    })
}

#[tactic(auto, using(crate::proofs::FieldLaws::not_both))]
fn margin_record(
    code: &[u8],
    currency: &[u8],
    requirement: i64,
    non_cash: i64,
) -> Result<Record, BookFault>
    ensures answer { refusal_of told_by_book result ≡ barred_for (margin_line code.now currency.now requirement non_cash) }
    ensures value { result_ok result ≡ record_of (margin_line code.now currency.now requirement non_cash) }
{
    let (code, currency) = names(code, currency)?;
    check_figures(Some(code), currency, requirement, non_cash)?;
    Ok(Record::Margin {
        code,
        currency,
        requirement,
        non_cash,
    })
}

fn deposit_record(code: &[u8], currency: &[u8], amount: i64) -> Result<Record, BookFault>
    ensures answer { refusal_of told_by_book result ≡ barred_for (deposit_line code.now currency.now amount) }
    ensures value { result_ok result ≡ record_of (deposit_line code.now currency.now amount) }
{
    let (code, currency) = names(code, currency)?;
    check(PAYMENT, amount, Some(code), currency)?;
    Ok(Record::Deposit {
        code,
        currency,
        amount,
    })
}

fn settlement_record(code: &[u8], currency: &[u8], amount: i64) -> Result<Record, BookFault>
    ensures answer { refusal_of told_by_book result ≡ barred_for (settlement_line code.now currency.now amount) }
    ensures value { result_ok result ≡ record_of (settlement_line code.now currency.now amount) }
{
    let (code, currency) = names(code, currency)?;
    check(SETTLEMENT, amount, Some(code), currency)?;
    Ok(Record::Settlement {
        code,
        currency,
        amount,
    })
}

fn callback_record(code: &[u8], currency: &[u8], amount: i64) -> Result<Record, BookFault>
    ensures answer { refusal_of told_by_book result ≡ barred_for (callback_line code.now currency.now amount) }
    ensures value { result_ok result ≡ record_of (callback_line code.now currency.now amount) }
{
    let (code, currency) = names(code, currency)?;
    check(PAYMENT, amount, Some(code), currency)?;
    Ok(Record::Callback {
        code,
        currency,
        amount,
    })
}

/// The record of an order, or the first fault that its own fields have, whatever book it meets.
impl TryFrom<Order<'_>> for Record {
    type Error = BookFault;

    ghost try_from_gives = { λ order r. OrderRecord order r };

    fn try_from(order: Order<'_>) -> Result<Record, BookFault> {
        match order {
            Order::Rate { currency, rate } => rate_record(currency, rate),
            Order::Holiday { currency, flag } => holiday_record(currency, flag),
            Order::Opening(opening) => opening_record(opening),
            Order::Limits {
                code,
                currency,
                limit,
                excess,
            } => limits_record(code, currency, limit, excess),
            Order::Margin {
                code,
                currency,
                requirement,
                non_cash,
            } => margin_record(code, currency, requirement, non_cash),
            Order::Deposit {
                code,
                currency,
                amount,
            } => deposit_record(code, currency, amount),
            Order::Settlement {
                code,
                currency,
                amount,
            } => settlement_record(code, currency, amount),
            Order::Callback {
                code,
                currency,
                amount,
            } => callback_record(code, currency, amount),
        }
    }
}

/// The record that a line writes if it is admitted, else what bars it.
#[tactic(auto, using(crate::proofs::AdmissionLaws::exactly))]
pub fn read_line(line: &[u8]) -> Result<Record, SheetFault>
    ensures answer { refusal_of told result ≡ barred line.now }
    ensures exact { Exactly line.now result }
{
    let order = form(line)?;
    Ok(Record::try_from(order)?)
}
