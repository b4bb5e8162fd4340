//! Orders, which are calls of the book.

/// The opening of an account, with its fields as they came in.
#[derive(Clone, Copy)]
pub struct Opening<'a> {
    pub code: &'a [u8],
    /// The number of the optimization account.
    pub number: i64,
    /// The base currency.
    pub base: &'a [u8],
    pub level: i64,
    pub setting: i64,
    pub priority: &'a [u8],
}

/// A call of the book with its arguments as they came in: the call says what is wrong with them.
#[derive(Clone, Copy)]
pub enum Order<'a> {
    Rate {
        currency: &'a [u8],
        rate: i64,
    },
    Holiday {
        currency: &'a [u8],
        flag: i64,
    },
    Opening(Opening<'a>),
    Limits {
        code: &'a [u8],
        currency: &'a [u8],
        limit: i64,
        excess: i64,
    },
    Margin {
        code: &'a [u8],
        currency: &'a [u8],
        requirement: i64,
        non_cash: i64,
    },
    Deposit {
        code: &'a [u8],
        currency: &'a [u8],
        amount: i64,
    },
    Settlement {
        code: &'a [u8],
        currency: &'a [u8],
        amount: i64,
    },
    Callback {
        code: &'a [u8],
        currency: &'a [u8],
        amount: i64,
    },
}
