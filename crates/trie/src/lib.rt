// A crit-bit trie over lent rows: a dictionary that uses only the spelling of its keys.
#![tactic(auto)]

pub use patricia::Trie;
pub use row::TrieRow;

mod bits;
pub mod calls;
mod graft;
mod hook;
mod insert;
pub mod laws;
mod look_up;
mod packed;
pub mod patricia;
pub mod place;
pub mod row;
