//! What the book refuses.
ghost use Rattle.std.specs.Prelude.{◌≡◌};
ghost use Rattle.request.specs.Faults.{told};
ghost use Rattle.request.specs.declared.fault.BookFault.TheVariants.{Account as OfAccount};
ghost use Rattle.money.specs.Refusals.{told as told_by};

use account::fault::AccountFault;
use money::cause::BookCause;
use money::refusal::{Fault, Refusal};

/// A fault of a call of the book: its own, or one found in the account layer, with all its parts.
#[derive(Clone, Copy)]
pub enum BookFault {
    Own(Fault<BookCause>),
    Account(AccountFault),
}

impl BookFault {
    /// The refusal as it is printed.
    pub fn refusal(self) -> Refusal
        ensures { told_by result ≡ told self }
    {
        match self {
            BookFault::Own(fault) => fault.refusal(),
            BookFault::Account(fault) => fault.refusal(),
        }
    }
}

impl From<AccountFault> for BookFault {
    ghost from_gives = { λ f r. r ≡ OfAccount f };

    fn from(fault: AccountFault) -> BookFault {
        BookFault::Account(fault)
    }
}
