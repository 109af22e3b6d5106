// Where a new inner node belongs.
ghost use Rattle.trie.specs.Bits.{bit, number};
ghost use Rattle.trie.specs.Trie.{Hooked, PartsFrom, child, crits, link_number};

use crate::bits::bit_at;
use crate::patricia::Trie;
use crate::place::Place;
use crate::row::{Hook, Link};
use dictionary::key::Key;
use dictionary::rows::Slot;

impl<'a, K: Key> Trie<'a, K> {
    /// The first link on the key's way that leads to no inner node which tests an earlier place. None there tests the place
    /// itself, where the key differs from the key that it meets.
    pub(crate) fn hook(&self, k: &K, place: Place) -> Hook
        requires { PartsFrom self.now.rows.now K.Key.spelling self.now.used (link_number self.now.root) k.now (number place) }
        ensures { Hooked (child self.now.rows.now) (crits self.now.rows.now) self.now.used (link_number self.now.root) (bit (K.Key.spelling k.now)) (number place) result }
    {
        let rows = &*self.rows;
        let mut slot = Slot::Root;
        let mut at = self.root;
        loop {
            let i = match at {
                Link::Leaf(leaf) => {
                    // The proof knows that a leaf's number fits only where the leaf is bound.
                    let link = Link::Leaf(leaf);
                    return Hook { slot, link };
                }
                Link::Inner(i) => i,
            };
            let row = &rows[i as usize];
            if row.place > place {
                return Hook { slot, link: at };
            }
            (slot, at) = if bit_at(k, row.place) {
                (Slot::Right(i), row.side(true))
            } else {
                (Slot::Left(i), row.side(false))
            };
        }
    }
}
