//! The balance of an account in one currency.
ghost use Rattle.std.specs.Prelude.{◌≡◌, ◌-ℤ◌};
ghost use Rattle.std.specs.Int.{int_max};
ghost use Rattle.account.specs.Accounts.{Ranged};
ghost use Rattle.account.specs.Amounts.{surplus_of, due_to_participant};
ghost use Rattle.determination.specs.Balances.{cover, held_cash, balance, room};
ghost use Rattle.determination.specs.Determinations.{due};
ghost use Rattle.valuation.specs.Laws.{InRange};

use account::account::Figures;
use account::terms::Level;

/// The figures of an account in one currency, all in their ranges, and its level.
#[derive(Clone, Copy)]
pub struct Position {
    pub level: Level,
    pub figures: Figures,
    ghost ranged: { Ranged figures },
}

impl Position {
    /// What is held above the limit, and non-cash value above the requirement.
    pub fn balance(self) -> i64
        ensures answer { result ≡ balance self.level self.figures }
        ensures ranged { InRange result }
    {
        let Figures {
            limit,
            non_cash,
            requirement,
            ..
        } = self.figures;
        (self.held_cash() - limit) + (non_cash - requirement)
    }

    /// Cash less cover, and what is due to the participant, at level 1.
    pub fn held_cash(self) -> i64
        ensures answer { result ≡ held_cash self.level self.figures }
        ensures ranged { InRange result }
    {
        match self.level {
            Level::MarginRequirement => (self.figures.cash - self.cover())
                + self.due_to_participant(),
            Level::CashOptimization => self.figures.cash,
        }
    }

    /// What of held cash may be repaid.
    pub fn room(self) -> i64
        ensures { result ≡ room self.level self.figures }
    {
        self.held_cash() - self.withheld()
    }

    /// What is due before calls and repayments.
    pub fn due(self) -> i64
        ensures answer { result ≡ due self.level self.figures }
        ensures ranged { InRange result }
    {
        match self.level {
            Level::MarginRequirement => self.figures.due_to_house() - self.cover(),
            Level::CashOptimization => self.figures.settlement,
        }
    }

    // What may not be repaid.
    fn withheld(self) -> i64
        ensures { result ≡ int_max self.figures.limit self.figures.excess }
    {
        self.figures.limit.max(self.figures.excess)
    }

    fn cover(self) -> i64
        ensures { result ≡ cover self.level self.figures }
    {
        match self.level {
            Level::MarginRequirement => self.figures.due_to_house().min(self.above_limit()),
            Level::CashOptimization => 0,
        }
    }

    fn above_limit(self) -> i64
        ensures { result ≡ surplus_of (self.figures.cash -ℤ self.figures.limit) }
    {
        (self.figures.cash - self.figures.limit).max(0)
    }

    fn due_to_participant(self) -> i64
        ensures answer { result ≡ due_to_participant self.figures }
        ensures ranged { InRange result }
    {
        (-self.figures.settlement).max(0)
    }
}
