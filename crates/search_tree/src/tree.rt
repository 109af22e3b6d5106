// The search tree.
ghost use Rattle.std.specs.Prelude.{◌^◌, ◌<◌, ◌≤◌, length};
ghost use Rattle.dictionary.specs.Meaning.{most};
ghost use Rattle.search_tree.specs.Tree.{Linked, InOrder};

use crate::row::TreeRow;
use dictionary::key::Key;

/// A dictionary over lent rows, one key a row, that uses only the order of its keys. Its links and its order are ghost
/// fields, so that a walk stays within the rows and ends, whatever they held before, and finds each key.
// The rows are the caller's memory, so a count stands beside them. Rows, count and asks are no struct that the trie shares: out of a struct with ghost
// fields that lies in another the checker does not cover lending a part of the rows.
#[derive(Drop)]
pub struct SearchTree<'a, K: Key> {
    pub(crate) rows: &'a mut [TreeRow<K>],
    pub(crate) used: usize,
    pub(crate) asks: u64,
    ghost long: { used ≤ most (length rows.now) },
    ghost counted: { asks < 2 ^ 64 },
    ghost links: { Linked used rows.now },
    ghost ordered: { InOrder K.Key.order used rows.now },
}
