//! What the sheet refuses.
ghost use Rattle.std.specs.Prelude.{◌≡◌};
ghost use Rattle.lines.specs.Faults.{told, of_book};
ghost use Rattle.money.specs.Refusals.{told as told_by_refusal};

use money::cause::Cause;
use money::refusal::Refusal;
use request::fault::BookFault;

/// Why a line is refused.
#[derive(Clone, Copy)]
pub enum SheetFault {
    /// It has the form of no line.
    Form,
    /// The book refuses the call, with all that its fault tells.
    Book(BookFault),
}

impl SheetFault {
    /// The refusal as it is printed.
    pub fn refusal(self) -> Refusal
        ensures { told_by_refusal result ≡ told self }
    {
        match self {
            SheetFault::Form => Refusal {
                cause: Cause::LineForm,
                code: None,
                currency: None,
            },
            SheetFault::Book(fault) => fault.refusal(),
        }
    }
}

impl From<BookFault> for SheetFault {
    ghost from_gives = { λ f r. r ≡ of_book f };

    fn from(fault: BookFault) -> SheetFault {
        SheetFault::Book(fault)
    }
}
