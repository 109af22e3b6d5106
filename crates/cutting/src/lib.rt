//! The cutting rule: a row of names falls into blocks of two to six names, and whether a block begins at a place depends only on the names near it.
//!
//! The rule knows names only as numbers. `block_starts` marks the blocks of a whole row, `Window` those of a part of a row, `next_block` walks a row
//! and its marks block by block, and `laws` has what follows from the rule.
#![tactic(auto)]

mod colours;
pub mod laws;
mod place;
pub mod row;
pub mod runs;
pub mod walk;
pub mod window;

pub use row::{NoRoom, block_starts};
pub use runs::{Run, next_run};
pub use walk::{Block, next_block};
pub use window::Window;

#[cfg(test)]
mod tests;
