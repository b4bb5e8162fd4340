//! The ranges of figures.
ghost use Rattle.std.specs.Prelude.{◌≡◌};
ghost use Rattle.money.specs.Ranges.{within};

/// The most hundredths that any amount holds.
pub const BOUND: i64 = 100_000_000_000;

/// The figures from `low` to `high`, both included.
#[derive(Clone, Copy)]
pub struct Range {
    pub low: i64,
    pub high: i64,
}

/// A rate: the price of one currency unit in ten-thousandths of the common money.
pub const RATE: Range = Range {
    low: 1_000,
    high: 999_999,
};

/// Cash, a requirement, a value that is not cash, a limit or an excess.
pub const FIGURE: Range = Range {
    low: 0,
    high: BOUND,
};

/// Open settlement, or a settlement that is booked.
pub const SETTLEMENT: Range = Range {
    low: -BOUND,
    high: BOUND,
};

/// A deposit or a callback.
pub const PAYMENT: Range = Range {
    low: 1,
    high: BOUND,
};

/// The number of an optimization account.
pub const OPTIMIZATION: Range = Range {
    low: 1,
    high: 999_999,
};

impl Range {
    /// Whether the figure lies in the range.
    pub fn holds(self, figure: i64) -> bool
        ensures { result ≡ within self figure }
    {
        self.low <= figure && figure <= self.high
    }
}
