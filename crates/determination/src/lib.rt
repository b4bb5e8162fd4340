//! What one account pays or gets.
#![tactic(auto)]

pub mod determination;
pub mod law;
