//! Texts: numbers in base ten, and the report of the matching program.
#![tactic(auto)]

pub mod numbers;
pub mod report;
