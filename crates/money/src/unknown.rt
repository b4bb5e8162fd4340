//! Numbers that stand for nothing.

/// A number that stands for none of the kinds as which it was read.
#[derive(Clone, Copy, PartialEq, Eq)]
pub struct Unknown(pub i64);
