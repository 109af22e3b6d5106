//! Two delivered files, read and compared.
#![tactic(auto)]

pub mod comparing;
pub mod faults;
pub mod matching;
