//! Line files: the line record and the reader of a file of lines.
#![tactic(auto)]

pub(crate) mod cut;
pub mod faults;
pub mod fields;
pub mod kind;
pub mod laws;
pub(crate) mod line;
pub(crate) mod parsing;
pub mod reader;
pub mod reading;
pub mod record;
pub mod record_key;
