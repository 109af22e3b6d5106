// The rows that hold keys, the walk for a key, and what it meets.
ghost use Rattle.std.specs.Prelude.{◌≡◌, ◌<◌, take};
ghost use Rattle.trie.specs.Bits.{bit};
ghost use Rattle.trie.specs.Trie.{Ends, Meets, child, crits, link_number};

use crate::bits::{bit_at, parting};
use crate::patricia::Trie;
use crate::place::Place;
use crate::row::{Link, TrieRow};
use dictionary::key::Key;

impl<'a, K: Key> Trie<'a, K> {
    /// The rows that hold keys.
    pub(crate) fn held(&self) -> &[TrieRow<K>]
        ensures { result.now ≡ take self.now.used self.now.rows.now }
    {
        let rows = &*self.rows;
        &rows[..self.used]
    }

    /// The leaf where the walk for the key ends.
    fn seek(&self, k: &K) -> u32
        requires { 0 < self.now.used }
        ensures within { result < self.now.used }
        ensures ends { Ends (child self.now.rows.now) (crits self.now.rows.now) (bit (K.Key.spelling k.now)) result (link_number self.now.root) }
    {
        let rows = &*self.rows;
        let mut at = self.root;
        loop {
            match at {
                Link::Leaf(i) => {
                    return i;
                }
                Link::Inner(i) => {
                    let row = &rows[i as usize];
                    at = row.side(bit_at(k, row.place));
                }
            }
        }
    }

    /// The row that has the key: the walk for it ends there, where one whole key is compared. Or the first place in which it
    /// differs from the key that it meets, if any.
    pub(crate) fn look(&self, k: &K) -> Result<u32, Option<Place>>
        ensures { Meets self.now.rows.now K.Key.spelling self.now.used (link_number self.now.root) k.now result }
    {
        if self.used == 0 {
            return Err(None);
        }
        let leaf = self.seek(k);
        let rows = &*self.rows;
        match parting(k, &rows[leaf as usize].key) {
            None => Ok(leaf),
            Some(place) => Err(Some(place)),
        }
    }
}
