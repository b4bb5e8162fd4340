//! Bookings.

/// A booking on an account in one currency, not tested yet.
#[derive(Clone, Copy)]
pub enum Booking {
    /// Cash that comes in.
    Deposit(i64),
    /// A settlement; positive is due to the house.
    Settlement(i64),
    /// A new cash collateral limit and a new cash excess amount.
    Limits { limit: i64, excess: i64 },
    /// A new margin requirement and a new value of collateral that is not cash.
    Margin { requirement: i64, non_cash: i64 },
    /// Cash that is called back.
    Callback(Callback),
}

/// Cash that is called back, at the rate of its currency, from an account that stands at so many points.
#[derive(Clone, Copy)]
pub struct Callback {
    pub amount: i64,
    pub rate: i64,
    pub standing: i64,
}
