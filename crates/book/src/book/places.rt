//! Where accounts lie.
ghost use Rattle.std.specs.Prelude.{◌≡◌, [], IfOk};
ghost use Rattle.book.specs.Books.{meaning};
ghost use Rattle.book.specs.Places.{PlaceOf, held_faults, HeldAt, Located};
ghost use Rattle.history.specs.Bookings.{account_faults};
ghost use Rattle.money.specs.Refusals.{refusal_of};
ghost use Rattle.request.specs.Causes.{first_told};
ghost use Rattle.request.specs.Faults.{told};

use super::Book;
use money::cause::BookCause;
use money::code::Code;
use money::currency::Currency;
use register::find;
use request::fault::BookFault;
use request::subject::Subject;

impl<V> Book<V> {
    // The place of the account that is held under a code.
    pub(super) fn place_of(&self, code: Code) -> Option<usize>
        ensures { PlaceOf (meaning self.now).accounts code result }
    {
        find(self.codes.as_slice(), &code)
    }

    // The place of the account and the currency that a call names.
    pub(super) fn locate(
        &self,
        code: &[u8],
        currency: &[u8],
    ) -> Result<(usize, Currency), BookFault>
        ensures answer { refusal_of told result ≡ account_faults (meaning self.now) code.now currency.now [] }
        ensures place { IfOk result (λ p. Located (meaning self.now) code.now currency.now p.0 p.1) }
    {
        let subject = Subject::read(code, currency);
        self.check_idle(subject)?;
        let at = self.held_at(subject)?;
        let currency = subject.known_currency()?;
        Ok((at, currency))
    }

    // The place of the account that a call names.
    pub(super) fn held_at(&self, subject: Subject) -> Result<usize, BookFault>
        ensures answer { refusal_of told result ≡ first_told (held_faults (meaning self.now) subject.code subject.currency) }
        ensures place { IfOk result (HeldAt (meaning self.now) subject.code) }
    {
        let code = subject.known_code()?;
        self.place_of(code)
            .ok_or(subject.fault(BookCause::CodeAbsent))
    }
}
