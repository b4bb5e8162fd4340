//! The rates and statuses that a book was given, of which some may be missing still.
#![tactic(auto)]

pub mod quotes;
