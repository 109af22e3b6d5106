//! Laws of building: what the names of a list depend on, and what they stand for.
#![tactic(auto)]

pub mod laws;
