//! The meaning of a book: what its calls refuse, what they change, and what whole histories of calls keep.
#![tactic(auto)]

pub mod law;
pub mod morning;
pub mod optimization;
pub mod run;
