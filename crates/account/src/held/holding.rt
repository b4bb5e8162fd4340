//! What an account holds in one currency.
ghost use Rattle.std.specs.Prelude.{◌≡◌, true, ◌&&◌, ◌+ℤ◌, ◌-ℤ◌, neg_ℤ, ◌≤ℤ◌, int_le};
ghost use Rattle.account.specs.Accounts.{Ranged, UpToBound};
ghost use Rattle.account.specs.Amounts.{due_to_house, standing_amount, free_cash, is_worth_at_most, may_call_back};
ghost use Rattle.account.specs.Bookings.{callback_booked, with_cash, with_settlement, with_limits, with_margin};
ghost use Rattle.account.specs.Checks.{are_figures};
ghost use Rattle.money.specs.Ranges.{bound, within, figure_range, payment_range, settlement_range};

use crate::account::Figures;
use crate::booking::Callback;

/// Figures that all lie in their ranges.
#[derive(Clone, Copy)]
pub(crate) struct Holding {
    pub(crate) figures: Figures,
    ghost ranged: { Ranged figures },
}

impl Holding {
    pub(crate) fn standing_amount(self) -> i64
        ensures { result ≡ standing_amount self.figures }
    {
        let Figures {
            cash,
            limit,
            non_cash,
            requirement,
            ..
        } = self.figures;
        (cash - limit) + (non_cash - requirement)
    }

    fn due_to_house(self) -> i64
        ensures answer { result ≡ due_to_house self.figures }
        ensures ranged { UpToBound result }
    {
        self.figures.due_to_house()
    }

    fn free_cash(self) -> i64
        ensures { result ≡ free_cash self.figures }
    {
        let Figures { cash, limit, .. } = self.figures;
        (cash - limit) - self.due_to_house()
    }

    // The three ceilings of a callback.
    pub(crate) fn grants(self, callback: Callback) -> bool
        ensures { result ≡ may_call_back self.figures callback.rate callback.standing callback.amount }
    {
        callback.is_within(self.free_cash(), self.standing_amount())
    }

    // What is left by a callback that is granted.
    pub(crate) fn call_back(self, callback: Callback) -> Holding
        requires payment { within payment_range callback.amount ≡ true }
        requires granted { may_call_back self.figures callback.rate callback.standing callback.amount ≡ true }
        ensures { result.figures ≡ callback_booked callback.amount self.figures }
    {
        self.with_cash(self.cash_less(callback.amount))
    }

    // The cash after a payment in.
    pub(crate) fn cash_with(self, amount: i64) -> i64
        requires { within payment_range amount ≡ true }
        ensures { result ≡ self.figures.cash +ℤ amount }
    {
        self.figures.cash + amount
    }

    fn cash_less(self, amount: i64) -> i64
        requires { within payment_range amount ≡ true }
        ensures { result ≡ self.figures.cash -ℤ amount }
    {
        self.figures.cash - amount
    }

    pub(crate) fn settlement_with(self, amount: i64) -> i64
        requires least { neg_ℤ bound ≤ℤ amount }
        requires most { amount ≤ℤ bound }
        ensures { result ≡ self.figures.settlement +ℤ amount }
    {
        self.figures.settlement + amount
    }

    pub(crate) fn with_cash(mut self, cash: i64) -> Holding
        requires { within figure_range cash ≡ true }
        ensures { result.figures ≡ with_cash cash self.figures }
    {
        self.figures.cash = cash;
        self
    }

    pub(crate) fn with_settlement(mut self, settlement: i64) -> Holding
        requires { within settlement_range settlement ≡ true }
        ensures { result.figures ≡ with_settlement settlement self.figures }
    {
        self.figures.settlement = settlement;
        self
    }

    pub(crate) fn with_limits(mut self, limit: i64, excess: i64) -> Holding
        requires { are_figures limit excess ≡ true }
        ensures { result.figures ≡ with_limits limit excess self.figures }
    {
        self.figures.limit = limit;
        self.figures.excess = excess;
        self
    }

    pub(crate) fn with_margin(mut self, requirement: i64, non_cash: i64) -> Holding
        requires { are_figures requirement non_cash ≡ true }
        ensures { result.figures ≡ with_margin requirement non_cash self.figures }
    {
        self.figures.requirement = requirement;
        self.figures.non_cash = non_cash;
        self
    }
}

impl Callback {
    // Whether the amount is at most the free cash and what the account stands on, and worth at most the standing.
    fn is_within(self, free: i64, stood: i64) -> bool
        ensures { result ≡ (int_le self.amount free && int_le self.amount stood && is_worth_at_most self.amount self.rate self.standing) }
    {
        self.amount <= free
            && self.amount <= stood
            && is_worth_at_most(self.amount, self.rate, self.standing)
    }
}

// The product may need twice the bits.
fn is_worth_at_most(amount: i64, rate: i64, points: i64) -> bool
    ensures { result ≡ is_worth_at_most amount rate points }
{
    i128::from(amount) * i128::from(rate) <= i128::from(points)
}
