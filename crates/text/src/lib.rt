//! Bytes of a sheet: cutting at a mark, lines, numbers.
#![tactic(auto)]

pub mod bytes;
pub mod number;
pub mod row;
