//! Questions, which are answered at any time and change nothing.
ghost use Rattle.std.specs.Prelude.{◌≡◌, length};
ghost use Rattle.book.specs.Books.{meaning};
ghost use Rattle.book.specs.Questions.{figures_refusal, figures_answer};
ghost use Rattle.history.specs.Bookings.{is_held};
ghost use Rattle.money.specs.Refusals.{refusal_of};
ghost use Rattle.request.specs.Faults.{told};
ghost use Rattle.std.specs.Result.{result_ok};

use super::Book;
use account::account::Figures;
use money::code::Code;
use request::fault::BookFault;
use request::subject::Subject;

impl<V> Book<V> {
    /// How many accounts are held.
    pub fn account_count(&self) -> usize
        ensures { result ≡ length (meaning self.now).accounts }
    {
        self.codes.len()
    }

    /// Whether an account is held under the code that the text is.
    pub fn is_held(&self, code: &[u8]) -> bool
        ensures { result ≡ is_held (meaning self.now) code.now }
    {
        Code::read(code).is_some_and(|code| self.place_of(code).is_some())
    }

    /// The figures of an account in a currency.
    pub fn figures(&self, code: &[u8], currency: &[u8]) -> Result<Figures, BookFault>
        ensures answer { refusal_of told result ≡ figures_refusal (meaning self.now) code.now currency.now }
        ensures value { result_ok result ≡ figures_answer (meaning self.now) code.now currency.now }
    {
        let subject = Subject::read(code, currency);
        let at = self.held_at(subject)?;
        let currency = subject.known_currency()?;
        Ok(self.accounts.rows[at].figures(currency))
    }
}
