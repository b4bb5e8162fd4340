//! Callbacks.
ghost use Rattle.std.specs.Prelude.{◌≡◌, ◌<◌, IfOk, Some, vec_len, slice_index_or};
ghost use Rattle.account.specs.declared.account.AccountState.{AccountState};
ghost use Rattle.account.specs.Bookings.{callback_booked};
ghost use Rattle.book.specs.Books.{meaning};
ghost use Rattle.book.specs.Callbacks.{is_stopped_number, callback_checks, Grantable};
ghost use Rattle.history.specs.Bookings.{account_faults, callback_refusal, is_stopped, booked};
ghost use Rattle.history.specs.Steps.{unless};
ghost use Rattle.money.specs.Refusals.{refusal_of};
ghost use Rattle.request.specs.Faults.{told};

use super::Book;
use account::booking::{Booking, Callback};
use account::check::check;
use determine::worth::standing;
use money::cause::BookCause;
use money::currency::Currency;
use money::range::PAYMENT;
use register::find;
use request::fault::BookFault;
use request::subject::Subject;
use valuation::valuation::Valuation;

// A callback that only its ceilings may stand against, with the place of its account and its currency.
#[derive(Clone, Copy)]
struct Granted {
    at: usize,
    currency: Currency,
    callback: Callback,
}

impl<V: Valuation> Book<V> {
    /// Pays cash back to the participant, on holidays too, if it is within the three ceilings of a callback.
    pub fn call_back(&mut self, code: &[u8], currency: &[u8], amount: i64) -> Result<(), BookFault>
        ensures answer { refusal_of told result ≡ callback_refusal V.meaning (meaning self.old) code.now currency.now amount }
        ensures after { meaning self.new ≡ unless (callback_refusal V.meaning (meaning self.old) code.now currency.now amount) (meaning self.old) (booked (meaning self.old) code.now currency.now (callback_booked amount)) }
        ensures valued { self.new.valuation ≡ self.old.valuation }
    {
        let granted = self.callback_for(code, currency, amount)?;
        self.book_at(
            granted.at,
            granted.currency,
            Booking::Callback(granted.callback),
        )?;
        Ok(())
    }

    // The callback, if nothing but its ceilings stands against it.
    fn callback_for(&self, code: &[u8], currency: &[u8], amount: i64) -> Result<Granted, BookFault>
        ensures answer { refusal_of told result ≡ account_faults (meaning self.now) code.now currency.now (callback_checks (meaning self.now) code.now currency.now amount) }
        ensures callback { IfOk result (Grantable V.meaning (meaning self.now) code.now currency.now amount) }
    {
        let subject = Subject::read(code, currency);
        let (at, currency) = self.locate(code, currency)?;
        check(PAYMENT, amount, subject.code, currency)?;
        let market = self.market_for(subject)?;
        if self.is_stopped(at) {
            return Err(subject.fault(BookCause::Stopped));
        }
        let callback = Callback {
            amount,
            rate: market.rate(currency),
            standing: standing(&self.valuation, &market, &self.accounts.rows[at]),
        };
        Ok(Granted {
            at,
            currency,
            callback,
        })
    }
}

impl<V> Book<V> {
    // Whether the optimization account of the account at a place is stopped.
    fn is_stopped(&self, at: usize) -> bool
        requires { at < vec_len self.now.accounts.rows }
        ensures { (d : AccountState) → result ≡ is_stopped (meaning self.now) (Some (slice_index_or (meaning self.now).accounts at d)) }
    {
        let number = self.accounts.rows[at].optimization();
        self.is_number_stopped(number)
    }

    // Whether an optimization account is stopped by a failed debit.
    fn is_number_stopped(&self, number: u32) -> bool
        ensures { result ≡ is_stopped_number (meaning self.now) number }
    {
        match find(self.numbers.as_slice(), &number) {
            Some(place) => self.optimizations[place].stopped,
            None => false,
        }
    }
}
