//! What admitted lines say: records, how they are written, and how lines are admitted.
#![tactic(auto)]

pub mod admission;
mod ending;
pub mod record;
