//! The lines of a sheet: their form, and the sheet's own fault.
#![tactic(auto)]

pub mod fault;
pub mod form;
