// A search tree over lent rows: a dictionary that uses only the order of its keys.
#![tactic(auto)]

pub use row::TreeRow;
pub use tree::SearchTree;

pub mod calls;
mod hang;
mod link;
mod look_up;
pub mod row;
pub mod tree;
