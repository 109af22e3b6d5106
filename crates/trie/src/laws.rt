//! Laws of tries. The functions do nothing: their contracts are the laws.
ghost use Rattle.trie.specs.Trie.{InPlace, link_number};

use crate::patricia::Trie;
use dictionary::key::Key;

/// In a trie each inner node parts the keys by the bit that it tests, and each key lies under the root.
pub fn in_place<'a, K: Key>(trie: &Trie<'a, K>)
    ensures { InPlace trie.now.rows.now K.Key.spelling trie.now.used (link_number trie.now.root) }
{}
