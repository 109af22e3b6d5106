//! The scheme of block signatures: compositions, and building a list.
#![tactic(auto)]

pub mod composition;
pub mod composition_key;
pub mod faults;
pub mod laws;
pub mod numbers;
