// The rows of a search tree.
ghost use Rattle.std.specs.Prelude.{◌≡◌};

use crate::link::Link;
use dictionary::key::Key;
use dictionary::rows::Row;

// Rows are the caller's memory and nothing here allocates: a link is the index of a row, not a Box.
/// A key, and the links to the rows on its left and right, which count from 0.
#[derive(Clone, Copy)]
pub struct TreeRow<K> {
    pub(crate) key: K,
    pub(crate) left: Link,
    pub(crate) right: Link,
}

// A caller hands in millions of rows: a row is its key and two links of four bytes.
const _: () = prove!(size_of::<TreeRow<u8>>() == 12);

impl<K: Key> TreeRow<K> {
    /// A row to hand in: what it holds does not matter.
    pub fn blank(key: K) -> TreeRow<K>
        ensures { (result.key ≡ key) × (result.left.0 ≡ 0) × (result.right.0 ≡ 0) }
    {
        TreeRow {
            key,
            left: Link::of(None),
            right: Link::of(None),
        }
    }
}

impl<K: Key> Row<K> for TreeRow<K> {
    ghost key = { λ w. w.key };

    fn key(&self) -> K {
        self.key
    }
}
