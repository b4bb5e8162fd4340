//! Determinations.
use money::currency::COUNT;

/// What a run determines for an account: the amount of each currency, in book order.
#[derive(Clone, Copy)]
pub struct Determination {
    /// What is called from the participant.
    pub calls: [i64; COUNT],
    /// What is repaid to the participant.
    pub repayments: [i64; COUNT],
    /// The part in the net payment of the optimization account; positive is a debit.
    pub shares: [i64; COUNT],
}
