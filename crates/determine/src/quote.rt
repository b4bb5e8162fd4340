//! Quotes.
use money::status::Status;

/// The rate of a currency, or what is known of it, and whether payments are made in the currency today.
#[derive(Clone, Copy)]
pub struct Quote<R> {
    pub rate: R,
    pub status: Status,
}
