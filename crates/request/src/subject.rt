//! The code and the currency that a call names.
ghost use Rattle.std.specs.Prelude.{◌≡◌};
ghost use Rattle.request.specs.Subjects.{subject_of, currency_subject, code_subject, with_currency, fault_of, code_answer, currency_answer};

use crate::fault::BookFault;
use money::cause::BookCause;
use money::code::Code;
use money::currency::Currency;
use money::refusal::Fault;

/// The code and the currency of a call, each where it is well formed: what every refusal of the call tells.
/// The currency of an opening is its base.
#[derive(Clone, Copy)]
pub struct Subject {
    pub code: Option<Code>,
    pub currency: Option<Currency>,
}

impl Subject {
    /// What a call on an account in a currency names.
    pub fn read(code: &[u8], currency: &[u8]) -> Subject
        ensures { result ≡ subject_of code.now currency.now }
    {
        Subject {
            code: Code::read(code),
            currency: Currency::read(currency),
        }
    }

    /// What a call on a currency alone names.
    pub fn of_currency(currency: &[u8]) -> Subject
        ensures { result ≡ currency_subject currency.now }
    {
        Subject {
            code: None,
            currency: Currency::read(currency),
        }
    }

    /// What a call on an account alone names.
    pub fn of_code(code: &[u8]) -> Subject
        ensures { result ≡ code_subject code.now }
    {
        let code = Code::read(code);
        Subject {
            code,
            currency: None,
        }
    }

    /// The same with another currency, which a refusal tells in place of the call's.
    pub fn with_currency(self, currency: Currency) -> Subject
        ensures { result ≡ with_currency self currency }
    {
        Subject {
            currency: Some(currency),
            ..self
        }
    }

    /// The book's fault of such a call.
    pub fn fault(self, cause: BookCause) -> BookFault
        ensures { result ≡ fault_of self cause }
    {
        BookFault::Own(Fault {
            cause,
            code: self.code,
            currency: self.currency,
        })
    }

    /// The code, which has to be well formed.
    pub fn known_code(self) -> Result<Code, BookFault>
        ensures { result ≡ code_answer self }
    {
        self.code.ok_or(self.fault(BookCause::CodeForm))
    }

    /// The currency, which has to be one of the book's.
    pub fn known_currency(self) -> Result<Currency, BookFault>
        ensures { result ≡ currency_answer self }
    {
        self.currency.ok_or(self.fault(BookCause::CurrencyUnknown))
    }
}
