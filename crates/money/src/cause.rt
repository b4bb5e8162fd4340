//! The causes of refusal.
ghost use Rattle.std.specs.Prelude.{◌≡◌, Some};
ghost use Rattle.money.specs.declared.cause.Cause.TheVariants as causes;
ghost use Rattle.money.specs.Causes.{book_number, account_number, number, layer, layer_name};

use std::fmt;

/// The layer that found a fault.
#[derive(Clone, Copy)]
pub enum Layer {
    Sheet,
    Book,
    Account,
}

/// What the book itself refuses for, each cause with the number that a refusal tells.
#[derive(Clone, Copy)]
pub enum BookCause {
    /// A run is open, and the call is neither a question nor a conclusion.
    RunOpen = 2,
    /// No run is open, or the numbers are not those of the book's run.
    OtherRun = 3,
    /// The account code has another form.
    CodeForm = 4,
    /// An opening names a code that is held already.
    CodeHeld = 5,
    /// Another call names a code that is not held.
    CodeAbsent = 6,
    /// The currency is none of the book's.
    CurrencyUnknown = 7,
    /// The optimization number is out of range.
    OptimizationNumber = 8,
    /// Level or setting is neither 1 nor 2.
    LevelOrSetting = 9,
    /// The priority does not name every currency once.
    PriorityForm = 10,
    /// The valuation does not admit the base currency.
    BaseNotAdmitted = 11,
    /// A currency has no rate.
    RateMissing = 13,
    /// No more accounts, optimization numbers or runs can be held.
    Full = 14,
    /// The optimization account is stopped by a failed debit.
    Stopped = 16,
    /// A failed debit has no net debit in the run.
    NoNetDebit = 18,
}

/// What an account refuses for, each cause with the number that a refusal tells.
#[derive(Clone, Copy)]
pub enum AccountCause {
    /// A figure is outside its range.
    OutOfRange = 12,
    /// Cash or open settlement would pass the bound.
    PastBound = 15,
    /// A callback exceeds one of its ceilings.
    PastCeiling = 17,
}

/// Every cause of refusal.
#[derive(Clone, Copy)]
pub enum Cause {
    /// The line is not in the form of any line.
    LineForm,
    Book(BookCause),
    Account(AccountCause),
}

impl BookCause {
    /// The number that a refusal tells.
    pub fn number(self) -> u8
        ensures { result ≡ book_number self }
    {
        self as u8
    }
}

impl AccountCause {
    /// The number that a refusal tells.
    pub fn number(self) -> u8
        ensures { result ≡ account_number self }
    {
        self as u8
    }
}

impl From<BookCause> for Cause {
    ghost from_gives = { λ cause r. r ≡ causes.Book cause };

    fn from(cause: BookCause) -> Self {
        Self::Book(cause)
    }
}

impl From<AccountCause> for Cause {
    ghost from_gives = { λ cause r. r ≡ causes.Account cause };

    fn from(cause: AccountCause) -> Self {
        Self::Account(cause)
    }
}

impl Cause {
    /// The number that a refusal tells.
    pub fn number(self) -> u8
        ensures { result ≡ number self }
    {
        match self {
            Cause::LineForm => 1,
            Cause::Book(cause) => cause.number(),
            Cause::Account(cause) => cause.number(),
        }
    }

    /// The layer that finds such a fault.
    pub fn layer(self) -> Layer
        ensures { result ≡ layer self }
    {
        match self {
            Cause::LineForm => Layer::Sheet,
            Cause::Book(_) => Layer::Book,
            Cause::Account(_) => Layer::Account,
        }
    }
}

impl fmt::Display for Layer {
    ghost output = { λ l. Some (layer_name l) };

    fn fmt<W: fmt::Write>(&self, f: &mut fmt::Formatter<W>) -> fmt::Result {
        match self {
            Layer::Sheet => f.write_str("sheet"),
            Layer::Book => f.write_str("book"),
            Layer::Account => f.write_str("account"),
        }
    }
}
