//! Figures are tested here, since a figure out of range is the account layer's to tell.
ghost use Rattle.std.specs.Prelude.{◌≡◌, Some, true, false, OnOk, OnErr};
ghost use Rattle.account.specs.Faults.{out_of_range};
ghost use Rattle.account.specs.Checks.{range_answer, rate_answer, status_answer, are_figures, figures_answer};
ghost use Rattle.money.specs.Ranges.{within};

use crate::fault::AccountFault;
use money::cause::AccountCause;
use money::code::Code;
use money::currency::Currency;
use money::range::{FIGURE, RATE, Range};
use money::status::Status;

fn out_of_range(code: Option<Code>, currency: Currency) -> AccountFault
    ensures { result ≡ out_of_range code (Some currency) }
{
    AccountFault {
        cause: AccountCause::OutOfRange,
        code,
        currency: Some(currency),
    }
}

fn expect(inside: bool, code: Option<Code>, currency: Currency) -> Result<(), AccountFault>
    ensures { result ≡ range_answer inside code currency }
{
    if inside {
        return Ok(());
    }
    Err(out_of_range(code, currency))
}

/// Refuses a figure that is out of its range: a deposit, a callback, a settlement.
pub fn check(
    range: Range,
    figure: i64,
    code: Option<Code>,
    currency: Currency,
) -> Result<(), AccountFault>
    ensures answer { result ≡ range_answer (within range figure) code currency }
    ensures ok { OnOk result (within range figure ≡ true) }
    ensures err { OnErr result (within range figure ≡ false) }
{
    expect(range.holds(figure), code, currency)
}

/// Refuses a limit with its excess, or a requirement with its non-cash value, where either is out of range.
pub fn check_figures(
    code: Option<Code>,
    currency: Currency,
    first: i64,
    second: i64,
) -> Result<(), AccountFault>
    ensures answer { result ≡ figures_answer code currency first second }
    ensures ok { OnOk result (are_figures first second ≡ true) }
    ensures err { OnErr result (are_figures first second ≡ false) }
{
    expect(FIGURE.holds(first) && FIGURE.holds(second), code, currency)
}

/// Refuses a rate that is out of range.
pub fn check_rate(currency: Currency, rate: i64) -> Result<(), AccountFault>
    ensures { result ≡ rate_answer currency rate }
{
    check(RATE, rate, None, currency)
}

/// The status that a holiday flag gives; a flag that is neither 0 nor 1 is refused.
pub fn read_status(currency: Currency, flag: i64) -> Result<Status, AccountFault>
    ensures { result ≡ status_answer currency flag }
{
    Status::try_from(flag).map_err(|_| out_of_range(None, currency))
}
