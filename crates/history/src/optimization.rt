//! Cash optimization accounts.

/// A cash optimization account. It is stopped from a conclusion with a failed debit in it until one without.
#[derive(Clone, Copy)]
pub struct OptimizationAccount {
    pub number: u32,
    pub stopped: bool,
}
