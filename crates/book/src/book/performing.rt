//! The one call that performs every order.
ghost use Rattle.std.specs.Prelude.{◌≡◌};
ghost use Rattle.book.specs.Books.{meaning};
ghost use Rattle.book.specs.Orders.{ordered};
ghost use Rattle.history.specs.Laws.{Extends};
ghost use Rattle.history.specs.Steps.{refused, step};
ghost use Rattle.money.specs.Refusals.{refusal_of};
ghost use Rattle.request.specs.Faults.{told};

use super::Book;
use request::fault::BookFault;
use request::order::Order;
use valuation::valuation::Valuation;

impl<V: Valuation> Book<V> {
    /// Performs an order; one that is refused leaves the book as it was. Whatever history is behind the book, it keeps
    /// the law of a book's life with this order added.
    pub fn perform(&mut self, order: Order<'_>) -> Result<(), BookFault>
        ensures answer { refusal_of told result ≡ refused V.meaning (meaning self.old) (ordered order.entry) }
        ensures after { meaning self.new ≡ step V.meaning (meaning self.old) (ordered order.entry) }
        ensures valued { self.new.valuation ≡ self.old.valuation }
        ensures law { Extends V.meaning (meaning self.old) (ordered order.entry) (meaning self.new) }
    {
        self.carry_out(order)
    }

    fn carry_out(&mut self, order: Order<'_>) -> Result<(), BookFault>
        ensures answer { refusal_of told result ≡ refused V.meaning (meaning self.old) (ordered order.entry) }
        ensures after { meaning self.new ≡ step V.meaning (meaning self.old) (ordered order.entry) }
        ensures valued { self.new.valuation ≡ self.old.valuation }
    {
        match order {
            Order::Rate { currency, rate } => self.set_rate(currency, rate),
            Order::Holiday { currency, flag } => self.set_holiday(currency, flag),
            Order::Opening(opening) => self.open_account(opening),
            Order::Limits {
                code,
                currency,
                limit,
                excess,
            } => self.set_limits(code, currency, limit, excess),
            Order::Margin {
                code,
                currency,
                requirement,
                non_cash,
            } => self.set_margin(code, currency, requirement, non_cash),
            Order::Deposit {
                code,
                currency,
                amount,
            } => self.deposit(code, currency, amount),
            Order::Settlement {
                code,
                currency,
                amount,
            } => self.settle(code, currency, amount),
            Order::Callback {
                code,
                currency,
                amount,
            } => self.call_back(code, currency, amount),
        }
    }
}
