// The rows that hold keys, and the walk for a key.
ghost use Rattle.std.specs.Prelude.{◌≡◌, ◌≤◌, take};
ghost use Rattle.search_tree.specs.Tree.{ends, found};

use crate::row::TreeRow;
use crate::tree::SearchTree;
use dictionary::key::Key;
use dictionary::rows::Slot;
use std::cmp::Ordering;

impl<'a, K: Key> SearchTree<'a, K> {
    /// The rows that hold keys.
    pub(crate) fn held(&self) -> &[TreeRow<K>]
        ensures { result.now ≡ take self.now.used self.now.rows.now }
    {
        let rows = &*self.rows;
        &rows[..self.used]
    }

    /// Where the walk for the key ends: at its row, or at the slot where a row for it can be hung.
    pub(crate) fn walk(&self, k: &K) -> Result<u32, Slot>
        ensures ends { result ≡ ends K.Key.order self.now.used self.now.rows.now k.now }
        ensures within { found result ≤ self.now.used }
    {
        let held = self.held();
        let mut slot = Slot::Root;
        let mut at = if held.is_empty() { None } else { Some(0) };
        while let Some(i) = at {
            let row = &held[i as usize];
            (slot, at) = match k.compare(&row.key) {
                Ordering::Less => (Slot::Left(i), row.left.row()),
                Ordering::Equal => return Ok(i),
                Ordering::Greater => (Slot::Right(i), row.right.row()),
            };
        }
        Err(slot)
    }
}
