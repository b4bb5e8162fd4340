//! An account as the book holds it, always sound.
ghost use Rattle.std.specs.Prelude.{◌≡◌, true};
ghost use Rattle.account.specs.Accounts.{sound};

use crate::account::AccountState;

mod book;
mod calls;
mod holding;

/// An account whose figures all lie in their ranges; no other can be made.
#[derive(Clone, Copy)]
pub struct Account {
    state: AccountState,
    ghost soundness: { sound state ≡ true },
}
