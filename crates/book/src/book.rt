//! The book in memory.
ghost use Rattle.std.specs.Prelude.{◌≡◌, ◌≤◌, true, vec_len, vec_capacity};
ghost use Rattle.book.specs.Rows.{codes_of, numbers_of};
ghost use Rattle.money.specs.CodeOrders.{code_order};
ghost use Rattle.register.specs.Rows.{ascending};
ghost use Rattle.std.specs.Ordering.{nat_cmp};

use account::held::Account;
use history::optimization::OptimizationAccount;
use history::run::OpenRun;
use money::code::Code;
use quotes::quotes::Quotes;

mod bookings;
mod callbacks;
mod making;
mod opening;
mod performing;
mod places;
mod questions;
mod rates;
mod standings;

/// The most accounts that a book holds.
const MOST_ACCOUNTS: usize = 64;

/// The most optimization accounts that a book holds.
const MOST_NUMBERS: usize = 16;

/// The accounts of a book, ascending by code.
#[derive(Drop)]
pub struct Accounts {
    rows: Vec<Account>,
}

/// A book of one member, with the valuation that it has for life.
/// Room for all accounts is there from its making on.
#[derive(Drop)]
pub struct Book<V> {
    number: u32,
    valuation: V,
    quotes: Quotes,
    /// The codes of the accounts, in their order.
    codes: Vec<Code>,
    accounts: Accounts,
    /// The numbers of the optimization accounts, in their order.
    numbers: Vec<u32>,
    optimizations: Vec<OptimizationAccount>,
    running: Option<OpenRun>,
    runs: u32,
    ghost coded: { codes_of accounts.rows.items ≡ codes.items },
    ghost rising: { ascending code_order codes.items ≡ true },
    ghost numbered: { numbers_of optimizations.items ≡ numbers.items },
    ghost climbing: { ascending nat_cmp numbers.items ≡ true },
    ghost few: { vec_len codes ≤ 64 },
    ghost less: { vec_len numbers ≤ 16 },
    ghost roomy: { 64 ≤ vec_capacity codes },
    ghost wide: { 64 ≤ vec_capacity accounts.rows },
    ghost spare: { 16 ≤ vec_capacity numbers },
    ghost broad: { 16 ≤ vec_capacity optimizations },
}
