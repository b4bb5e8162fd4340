//! Points, and the amounts that they are turned into.
ghost use Rattle.std.specs.Prelude.{◌≡◌, pos, ◌-ℤ◌, ◌≤ℤ◌};
ghost use Rattle.std.specs.Int.{int_max};
ghost use Rattle.account.specs.Amounts.{surplus_of, deficiency_of};
ghost use Rattle.determination.specs.Roundings.{rounded_up, rounded_down};
ghost use Rattle.determine.specs.Points.{AllPoints, Rest};
ghost use Rattle.determine.specs.Rates.{IsRate};

/// Points that are short or over, or what rests of them: 0 or more.
#[derive(Clone, Copy)]
pub struct Points {
    pub count: i64,
    ghost rest: { Rest count },
}

impl Points {
    /// The points that are short where the total is so much.
    pub fn short(total: i64) -> Points
        requires { AllPoints total }
        ensures { result.count ≡ deficiency_of total }
    {
        Points {
            count: (-total).max(0),
        }
    }

    /// The points that are over where the total is so much.
    pub fn over(total: i64) -> Points
        requires { AllPoints total }
        ensures { result.count ≡ surplus_of total }
    {
        Points {
            count: total.max(0),
        }
    }

    /// The amount that the points make, rounded up.
    pub fn rounded_up(self, rate: i64) -> i64
        requires { IsRate rate }
        ensures { result ≡ rounded_up self.count rate }
    {
        (self.count + (rate - 1)) / rate
    }

    /// The amount that the points make, rounded down.
    pub fn rounded_down(self, rate: i64) -> i64
        requires { IsRate rate }
        ensures { result ≡ rounded_down self.count rate }
    {
        self.count / rate
    }

    /// What rests of the points when some are spent, 0 at least.
    pub fn less(self, spent: i64) -> Points
        requires { pos 0 ≤ℤ spent }
        ensures { result.count ≡ int_max (self.count -ℤ spent) (pos 0) }
    {
        Points {
            count: (self.count - spent).max(0),
        }
    }
}
