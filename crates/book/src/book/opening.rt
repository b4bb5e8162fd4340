//! Openings.
ghost use Rattle.std.specs.Prelude.{◌≡◌, ◌≤◌, ◌<◌, ◌+◌, false, not, ◌&&◌, IfOk, Some, None, vec_len, vec_capacity, vec_items};
ghost use Rattle.std.specs.List.{insert};
ghost use Rattle.account.specs.Answers.{state_of};
ghost use Rattle.book.specs.Books.{meaning};
ghost use Rattle.book.specs.Openings.{code_faults, room_faults, opening_faults, is_full_of_accounts, is_full_of_numbers, IsFree, Opens};
ghost use Rattle.book.specs.Orders.{opening_call};
ghost use Rattle.history.specs.Bookings.{is_full, is_in_use, insert_account, insert_number, with_accounts, with_opened};
ghost use Rattle.history.specs.States.{account_with};
ghost use Rattle.history.specs.Steps.{refused, step};
ghost use Rattle.money.specs.Refusals.{refusal_of};
ghost use Rattle.request.specs.Causes.{first_told};
ghost use Rattle.request.specs.Faults.{told};

use super::{Book, MOST_ACCOUNTS, MOST_NUMBERS};
use account::held::Account;
use history::optimization::OptimizationAccount;
use money::cause::BookCause;
use money::code::Code;
use money::currency::Currency;
use register::{find, insertion_point};
use request::fault::BookFault;
use request::opening::Terms;
use request::order::Opening;
use request::subject::Subject;
use valuation::valuation::Valuation;

impl<V: Valuation> Book<V> {
    /// Opens an account with all its figures 0, under a code that is not held yet.
    pub fn open_account(&mut self, opening: Opening<'_>) -> Result<(), BookFault>
        ensures answer { refusal_of told result ≡ refused V.meaning (meaning self.old) (opening_call opening.entry) }
        ensures after { meaning self.new ≡ step V.meaning (meaning self.old) (opening_call opening.entry) }
        ensures valued { self.new.valuation ≡ self.old.valuation }
    {
        let subject = Subject::read(opening.code, opening.base);
        let account = self.new_account(subject, opening)?;
        self.insert(account);
        Ok(())
    }

    // The account that an opening makes, if nothing stands against it.
    fn new_account(&self, subject: Subject, opening: Opening<'_>) -> Result<Account, BookFault>
        ensures answer { refusal_of told result ≡ first_told (opening_faults V.meaning (meaning self.now) subject.code opening.entry.number subject.currency opening.entry.level opening.entry.setting opening.entry.priority.now) }
        ensures account { IfOk result (λ a. Opens (meaning self.now) subject.code opening.entry.number subject.currency opening.entry.level opening.entry.setting opening.entry.priority.now (state_of a)) }
    {
        let code = self.free_code(subject)?;
        let terms = Terms::read(
            subject,
            opening.number,
            opening.level,
            opening.setting,
            opening.priority,
        )?;
        self.check_room(subject, terms.base, terms.number)?;
        Ok(Account::new(
            code,
            terms.number,
            terms.base,
            terms.level,
            terms.setting,
            terms.priority,
        ))
    }

    // Refuses a base that the valuation does not admit, and an account that there is no room for.
    fn check_room(&self, subject: Subject, base: Currency, number: u32) -> Result<(), BookFault>
        requires { subject.currency ≡ Some base }
        ensures { refusal_of told result ≡ first_told (room_faults V.meaning (meaning self.now) subject.code subject.currency number) }
    {
        if !self.valuation.admits(base) {
            return Err(subject.fault(BookCause::BaseNotAdmitted));
        }
        if self.is_full(number) {
            return Err(subject.fault(BookCause::Full));
        }
        Ok(())
    }
}

impl<V> Book<V> {
    // The code of an opening, which no account is held under yet.
    fn free_code(&self, subject: Subject) -> Result<Code, BookFault>
        ensures answer { refusal_of told result ≡ first_told (code_faults (meaning self.now) subject.code subject.currency) }
        ensures free { IfOk result (IsFree (meaning self.now) subject.code) }
    {
        self.check_idle(subject)?;
        let code = subject.known_code()?;
        if self.place_of(code).is_some() {
            return Err(subject.fault(BookCause::CodeHeld));
        }
        Ok(code)
    }

    // Puts a new account at its place, and its optimization number if that is new.
    fn insert(&mut self, account: Account)
        requires absent { account_with (meaning self.old) (state_of account).code ≡ None }
        requires room { is_full (meaning self.old) (state_of account).optimization ≡ false }
        ensures after { meaning self.new ≡ with_opened (meaning self.old) (state_of account) }
        ensures valued { self.new.valuation ≡ self.old.valuation }
    {
        self.hold_number(account.optimization());
        self.insert_account(account);
    }

    // A number that is in use stays as it is; a new one is put at its place.
    fn hold_number(&mut self, number: u32)
        requires room { (is_full_of_numbers (meaning self.old) && not (is_in_use (meaning self.old) number)) ≡ false }
        ensures after { meaning self.new ≡ with_accounts (meaning self.old) (meaning self.old).accounts (insert_number number (meaning self.old).optimizations) }
        ensures valued { self.new.valuation ≡ self.old.valuation }
    {
        if self.is_in_use(number) {
            return;
        }
        self.insert_number(number);
    }

    // Whether an optimization number has been given to an account.
    fn is_in_use(&self, number: u32) -> bool
        ensures { result ≡ is_in_use (meaning self.now) number }
    {
        find(self.numbers.as_slice(), &number).is_some()
    }

    fn is_full_of_accounts(&self) -> bool
        ensures { result ≡ is_full_of_accounts (meaning self.now) }
    {
        self.codes.len() >= MOST_ACCOUNTS
    }

    fn is_full_of_numbers(&self) -> bool
        ensures { result ≡ is_full_of_numbers (meaning self.now) }
    {
        self.numbers.len() >= MOST_NUMBERS
    }

    // Whether there is no room for an account under an optimization number.
    fn is_full(&self, number: u32) -> bool
        ensures { result ≡ is_full (meaning self.now) number }
    {
        self.is_full_of_accounts() || self.is_full_of_numbers() && !self.is_in_use(number)
    }

    // Puts a new account at its place by code.
    fn insert_account(&mut self, account: Account)
        requires absent { account_with (meaning self.old) (state_of account).code ≡ None }
        requires room { is_full_of_accounts (meaning self.old) ≡ false }
        ensures after { meaning self.new ≡ with_accounts (meaning self.old) (insert_account (state_of account) (meaning self.old).accounts) (meaning self.old).optimizations }
        ensures valued { self.new.valuation ≡ self.old.valuation }
    {
        let code = account.code();
        let at = insertion_point(self.codes.as_slice(), &code);
        insert_within(&mut self.codes, at, code);
        insert_within(&mut self.accounts.rows, at, account);
    }

    // Puts a new optimization number at its place; it is not stopped.
    fn insert_number(&mut self, number: u32)
        requires absent { is_in_use (meaning self.old) number ≡ false }
        requires room { is_full_of_numbers (meaning self.old) ≡ false }
        ensures after { meaning self.new ≡ with_accounts (meaning self.old) (meaning self.old).accounts (insert_number number (meaning self.old).optimizations) }
        ensures valued { self.new.valuation ≡ self.old.valuation }
    {
        let at = insertion_point(self.numbers.as_slice(), &number);
        insert_within(&mut self.numbers, at, number);
        let opened = OptimizationAccount {
            number,
            stopped: false,
        };
        insert_within(&mut self.optimizations, at, opened);
    }
}

// Puts an item at its place among those of a row that has room for it.
fn insert_within<T: Drop>(row: &mut Vec<T>, at: usize, item: T)
    requires place { at ≤ vec_len row.old }
    requires room { vec_len row.old < vec_capacity row.old }
    ensures items { vec_items row.new ≡ insert (vec_items row.old) at item }
    ensures len { vec_len row.new ≡ vec_len row.old + 1 }
    ensures capacity { vec_capacity row.new ≡ vec_capacity row.old }
{
    match row.insert(at, item) {
        Ok(()) => {}
        Err(_) => unreachable!(),
    }
}
