//! What a refusal tells.
ghost use Rattle.std.specs.Prelude.{◌≡◌, Some, ◌++◌};
ghost use Rattle.money.specs.Refusals.{told, shown_told, or_dash};

use crate::cause::Cause;
use crate::code::Code;
use crate::currency::Currency;
use std::fmt;

/// A fault: its cause, and the code and the currency of the call where they are well formed.
#[derive(Clone, Copy)]
pub struct Fault<C> {
    pub cause: C,
    pub code: Option<Code>,
    pub currency: Option<Currency>,
}

/// A refusal as it is printed: a fault of any layer.
pub type Refusal = Fault<Cause>;

impl<C: Into<Cause>> Fault<C> {
    /// The refusal as it is printed.
    pub fn refusal(self) -> Refusal
        ensures cause { C.converts self.cause result.cause }
        ensures code { result.code ≡ self.code }
        ensures currency { result.currency ≡ self.currency }
    {
        Refusal {
            cause: self.cause.into(),
            code: self.code,
            currency: self.currency,
        }
    }
}

/// What is told, or `-` where it is not.
#[derive(Clone, Copy)]
struct OrDash<T>(Option<T>);

impl<T: fmt::Display> fmt::Display for OrDash<T> {
    ghost output = { λ o. or_dash T.output o.0 };

    fn fmt<W: fmt::Write>(&self, f: &mut fmt::Formatter<W>) -> fmt::Result {
        match &self.0 {
            None => f.write_str("-"),
            Some(told) => write!(f, "{told}"),
        }
    }
}

/// The layer, the number, the code and the currency, parted by single spaces.
impl fmt::Display for Refusal {
    ghost output = { λ r. Some (shown_told (told r)) };

    fn fmt<W: fmt::Write>(&self, f: &mut fmt::Formatter<W>) -> fmt::Result {
        let layer = self.cause.layer();
        let number = self.cause.number();
        let code = OrDash(self.code);
        let currency = OrDash(self.currency);
        write!(f, "{layer} {number} {code} {currency}")
    }
}
