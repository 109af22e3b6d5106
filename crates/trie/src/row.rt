// The rows of a trie, and the links between them.
ghost use Rattle.std.specs.Prelude.{◌≡◌};
ghost use Rattle.trie.specs.Trie.{link_number, side};

use crate::packed::PackedLink;
use crate::place::Place;
use dictionary::key::Key;
use dictionary::rows::{Row, Slot};

/// A link to a row: to its leaf, which is its key, or to its inner node. Rows count from 0 here.
#[derive(Clone, Copy, Debug, PartialEq, Eq)]
pub(crate) enum Link {
    Leaf(u32),
    Inner(u32),
}

/// A key, and an inner node that tests the bit at a place. Each row but the first is an inner node too.
#[derive(Clone, Copy)]
pub struct TrieRow<K> {
    pub(crate) key: K,
    pub(crate) place: Place,
    pub(crate) left: PackedLink,
    pub(crate) right: PackedLink,
}

// A caller hands in millions of rows: a row is its key, a place of 16 bytes and two links of four.
const _: () = prove!(size_of::<TrieRow<u8>>() == 32);

impl<K: Key> TrieRow<K> {
    /// A row to hand in: what it holds does not matter.
    pub fn blank(key: K) -> TrieRow<K>
        ensures { (result.key ≡ key) × (result.place.byte ≡ 0) × (result.place.bit ≡ 0) × (result.left.0 ≡ 0) × (result.right.0 ≡ 0) }
    {
        TrieRow {
            key,
            place: Place { byte: 0, bit: 0 },
            left: Link::Leaf(0).packed(),
            right: Link::Leaf(0).packed(),
        }
    }
}

impl<K> TrieRow<K> {
    pub(crate) fn side(&self, right: bool) -> Link
        ensures { link_number result ≡ side right self.now }
    {
        if right {
            self.right.link()
        } else {
            self.left.link()
        }
    }
}

impl<K: Key> Row<K> for TrieRow<K> {
    ghost key = { λ w. w.key };

    fn key(&self) -> K {
        self.key
    }
}

/// Where a new inner node is hung: the slot, and the link that stands in it.
#[derive(Clone, Copy)]
pub(crate) struct Hook {
    pub(crate) slot: Slot,
    pub(crate) link: Link,
}
