//! Tests of the crate `lines`: tables of lines and files, and what they give.
#![tactic(auto)]

#[cfg(test)]
mod files;
#[cfg(test)]
mod layout;
#[cfg(test)]
mod written;
