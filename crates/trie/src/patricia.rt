// The trie.
ghost use Rattle.std.specs.Prelude.{◌^◌, ◌<◌, ◌≤◌, length};
ghost use Rattle.dictionary.specs.Meaning.{most};
ghost use Rattle.trie.specs.Trie.{Linked, Rooted, Sound, link_number};

use crate::row::{Link, TrieRow};
use dictionary::key::Key;

/// A dictionary over lent rows, one key a row, that uses only the spelling of its keys. What it rests on is its ghost fields,
/// so that a walk stays within the rows and ends, whatever they held before, and finds each key.
// The rows are the caller's memory, and nothing here takes any: so there is a count of rows beside them, and links are row
// numbers and no boxes. Rows, count and asks are no struct that the tree shares, as said in `search_tree/src/tree.rt`. The root is no `Option`: while
// no row is used nothing reads it, which the count says already.
#[derive(Drop)]
pub struct Trie<'a, K: Key> {
    pub(crate) rows: &'a mut [TrieRow<K>],
    pub(crate) used: usize,
    pub(crate) root: Link,
    pub(crate) asks: u64,
    ghost long: { used ≤ most (length rows.now) },
    ghost counted: { asks < 2 ^ 64 },
    ghost linked: { Linked rows.now used },
    ghost rooted: { Rooted rows.now used (link_number root) },
    ghost sound: { Sound rows.now K.Key.spelling used (link_number root) },
}
