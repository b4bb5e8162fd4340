//! Where accounts stand.
ghost use Rattle.std.specs.Prelude.{◌≡◌, [], ◌∷◌, IfOk};
ghost use Rattle.book.specs.Books.{meaning};
ghost use Rattle.book.specs.Standings.{standing_answer, missing_fault};
ghost use Rattle.determine.specs.Markets.{market_in};
ghost use Rattle.history.specs.Bookings.{standing_refusal};
ghost use Rattle.history.specs.States.{market_of};
ghost use Rattle.money.specs.Refusals.{refusal_of};
ghost use Rattle.request.specs.Causes.{first_told};
ghost use Rattle.request.specs.Faults.{told};
ghost use Rattle.std.specs.Result.{result_ok};

use super::Book;
use determine::market::Market;
use determine::worth::standing;
use money::cause::BookCause;
use request::fault::BookFault;
use request::subject::Subject;
use valuation::valuation::Valuation;

impl<V: Valuation> Book<V> {
    /// Where an account stands, in points: a question, which is answered while a run is open too.
    pub fn standing(&self, code: &[u8]) -> Result<i64, BookFault>
        ensures answer { refusal_of told result ≡ standing_refusal (meaning self.now) code.now }
        ensures value { result_ok result ≡ standing_answer V.meaning (meaning self.now) code.now }
    {
        let subject = Subject::of_code(code);
        let at = self.held_at(subject)?;
        let market = self.market_for(subject)?;
        Ok(standing(&self.valuation, &market, &self.accounts.rows[at]))
    }
}

impl<V> Book<V> {
    // The market of a call, which needs every rate.
    pub(super) fn market_for(&self, subject: Subject) -> Result<Market, BookFault>
        ensures answer { refusal_of told result ≡ first_told (missing_fault (meaning self.now) subject.code ∷ []) }
        ensures market { IfOk result (λ m. market_in m ≡ market_of (meaning self.now)) }
    {
        match self.quotes.market() {
            Ok(market) => Ok(market),
            Err(currency) => Err(
                subject
                    .with_currency(currency)
                    .fault(BookCause::RateMissing),
            ),
        }
    }
}
