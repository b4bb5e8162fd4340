//! Bookings on the accounts of a book.
ghost use Rattle.std.specs.Prelude.{◌≡◌, ◌<◌, vec_len, slice_index_or};
ghost use Rattle.account.specs.declared.account.AccountState.{AccountState};
ghost use Rattle.account.specs.Answers.{booking_answer, chosen};
ghost use Rattle.account.specs.Bookings.{with_limits, with_margin, deposit_booked, settlement_booked, booking_change, change_figures};
ghost use Rattle.book.specs.Bookings.{booking_refusal, after_booking, with_row};
ghost use Rattle.book.specs.Books.{meaning};
ghost use Rattle.history.specs.Bookings.{limits_refusal, margin_refusal, deposit_refusal, settlement_refusal, booked};
ghost use Rattle.history.specs.Steps.{unless};
ghost use Rattle.money.specs.Refusals.{refusal_of};
ghost use Rattle.request.specs.Faults.{told};

use super::Book;
use account::booking::Booking;
use account::fault::AccountFault;
use money::currency::Currency;
use request::fault::BookFault;

impl<V> Book<V> {
    /// Sets the cash collateral limit and the cash excess amount of an account in a currency, in place of the old ones.
    pub fn set_limits(
        &mut self,
        code: &[u8],
        currency: &[u8],
        limit: i64,
        excess: i64,
    ) -> Result<(), BookFault>
        ensures answer { refusal_of told result ≡ limits_refusal (meaning self.old) code.now currency.now limit excess }
        ensures after { meaning self.new ≡ unless (limits_refusal (meaning self.old) code.now currency.now limit excess) (meaning self.old) (booked (meaning self.old) code.now currency.now (with_limits limit excess)) }
        ensures valued { self.new.valuation ≡ self.old.valuation }
    {
        self.book(code, currency, Booking::Limits { limit, excess })
    }

    /// Sets the margin requirement and the value of collateral that is not cash, in place of the old ones.
    pub fn set_margin(
        &mut self,
        code: &[u8],
        currency: &[u8],
        requirement: i64,
        non_cash: i64,
    ) -> Result<(), BookFault>
        ensures answer { refusal_of told result ≡ margin_refusal (meaning self.old) code.now currency.now requirement non_cash }
        ensures after { meaning self.new ≡ unless (margin_refusal (meaning self.old) code.now currency.now requirement non_cash) (meaning self.old) (booked (meaning self.old) code.now currency.now (with_margin requirement non_cash)) }
        ensures valued { self.new.valuation ≡ self.old.valuation }
    {
        self.book(
            code,
            currency,
            Booking::Margin {
                requirement,
                non_cash,
            },
        )
    }

    /// Books cash that comes in.
    pub fn deposit(&mut self, code: &[u8], currency: &[u8], amount: i64) -> Result<(), BookFault>
        ensures answer { refusal_of told result ≡ deposit_refusal (meaning self.old) code.now currency.now amount }
        ensures after { meaning self.new ≡ unless (deposit_refusal (meaning self.old) code.now currency.now amount) (meaning self.old) (booked (meaning self.old) code.now currency.now (deposit_booked amount)) }
        ensures valued { self.new.valuation ≡ self.old.valuation }
    {
        self.book(code, currency, Booking::Deposit(amount))
    }

    /// Books a settlement: a positive amount is due to the house.
    pub fn settle(&mut self, code: &[u8], currency: &[u8], amount: i64) -> Result<(), BookFault>
        ensures answer { refusal_of told result ≡ settlement_refusal (meaning self.old) code.now currency.now amount }
        ensures after { meaning self.new ≡ unless (settlement_refusal (meaning self.old) code.now currency.now amount) (meaning self.old) (booked (meaning self.old) code.now currency.now (settlement_booked amount)) }
        ensures valued { self.new.valuation ≡ self.old.valuation }
    {
        self.book(code, currency, Booking::Settlement(amount))
    }

    // A booking on the account that a call names.
    fn book(&mut self, code: &[u8], currency: &[u8], booking: Booking) -> Result<(), BookFault>
        ensures answer { refusal_of told result ≡ booking_refusal (meaning self.old) code.now currency.now booking }
        ensures after { meaning self.new ≡ after_booking (meaning self.old) code.now currency.now booking }
        ensures valued { self.new.valuation ≡ self.old.valuation }
    {
        let (at, currency) = self.locate(code, currency)?;
        self.book_at(at, currency, booking)?;
        Ok(())
    }

    // The account at a place is changed there, and no other.
    pub(super) fn book_at(
        &mut self,
        at: usize,
        currency: Currency,
        booking: Booking,
    ) -> Result<(), AccountFault>
        requires { at < vec_len self.old.accounts.rows }
        ensures answer { (d : AccountState) → result ≡ booking_answer (slice_index_or (meaning self.old).accounts at d) currency booking }
        ensures after { (d : AccountState) → meaning self.new ≡ chosen result (meaning self.old) (with_row (meaning self.old) at (change_figures (booking_change booking) currency (slice_index_or (meaning self.old).accounts at d))) }
        ensures valued { self.new.valuation ≡ self.old.valuation }
    {
        self.accounts.rows[at].book(currency, booking)
    }
}
