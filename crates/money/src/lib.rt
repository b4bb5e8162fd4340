//! Currencies, account codes, ranges of figures, and what a refusal tells.
#![tactic(auto)]

pub mod cause;
pub mod code;
pub mod currency;
pub mod range;
pub mod refusal;
pub mod status;
pub mod unknown;
