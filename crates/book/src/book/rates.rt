//! Rates and holidays.
ghost use Rattle.std.specs.Prelude.{◌≡◌};
ghost use Rattle.book.specs.Books.{meaning, idle_answer, idle_currency};
ghost use Rattle.history.specs.Bookings.{rate_refusal, rate_set, holiday_refusal, holiday_set};
ghost use Rattle.history.specs.Steps.{unless};
ghost use Rattle.money.specs.Refusals.{refusal_of};
ghost use Rattle.request.specs.Faults.{told};

use super::Book;
use account::check::read_status;
use money::cause::BookCause;
use money::currency::Currency;
use request::fault::BookFault;
use request::subject::Subject;

impl<V> Book<V> {
    /// Gives a currency its rate, in place of the old one.
    pub fn set_rate(&mut self, currency: &[u8], rate: i64) -> Result<(), BookFault>
        ensures answer { refusal_of told result ≡ rate_refusal (meaning self.old) currency.now rate }
        ensures after { meaning self.new ≡ unless (rate_refusal (meaning self.old) currency.now rate) (meaning self.old) (rate_set (meaning self.old) currency.now rate) }
        ensures valued { self.new.valuation ≡ self.old.valuation }
    {
        let currency = self.idle_currency(currency)?;
        self.quotes.set_rate(currency, rate)?;
        Ok(())
    }

    /// Shuts a currency for its holiday (flag 1), or opens it again (flag 0).
    pub fn set_holiday(&mut self, currency: &[u8], flag: i64) -> Result<(), BookFault>
        ensures answer { refusal_of told result ≡ holiday_refusal (meaning self.old) currency.now flag }
        ensures after { meaning self.new ≡ unless (holiday_refusal (meaning self.old) currency.now flag) (meaning self.old) (holiday_set (meaning self.old) currency.now flag) }
        ensures valued { self.new.valuation ≡ self.old.valuation }
    {
        let currency = self.idle_currency(currency)?;
        let status = read_status(currency, flag)?;
        self.quotes.set_status(currency, status);
        Ok(())
    }

    // The currency of a call that no open run stands against.
    fn idle_currency(&self, currency: &[u8]) -> Result<Currency, BookFault>
        ensures { result ≡ idle_currency (meaning self.now) currency.now }
    {
        let subject = Subject::of_currency(currency);
        self.check_idle(subject)?;
        subject.known_currency()
    }

    // Refuses any call but a question or a conclusion while a run is open.
    pub(super) fn check_idle(&self, subject: Subject) -> Result<(), BookFault>
        ensures { result ≡ idle_answer (meaning self.now) subject }
    {
        if self.running.is_some() {
            return Err(subject.fault(BookCause::RunOpen));
        }
        Ok(())
    }
}
