//! Runs as the book remembers them.

/// A run that was cut off and is not concluded yet.
#[derive(Clone, Copy)]
pub struct OpenRun {
    pub number: u32,
}

/// A debit that failed, as it is reported: an optimization number and a currency, not looked at yet.
#[derive(Clone, Copy)]
pub struct FailedDebit<'a> {
    pub number: i64,
    pub currency: &'a [u8],
}
