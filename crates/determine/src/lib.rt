//! What one account pays or gets, worked out.
#![tactic(auto)]

mod amounts;
mod calls;
mod case;
pub mod determine;
pub mod market;
mod points;
mod position;
pub mod quote;
mod shares;
#[cfg(test)]
mod tests;
mod walk;
pub mod worth;
