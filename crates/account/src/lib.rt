//! One margin account: its terms and figures, their ranges, and the account layer's fault.
#![tactic(auto)]

pub mod account;
pub mod booking;
pub mod check;
pub mod fault;
pub mod held;
pub mod priority;
pub mod terms;
