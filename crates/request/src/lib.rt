//! What a call of the book is about, and the book layer's fault.
#![tactic(auto)]

pub mod fault;
pub mod opening;
pub mod order;
pub mod subject;
