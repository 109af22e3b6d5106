// One key more in a trie.
ghost use Rattle.std.specs.Prelude.{◌≡◌, ◌+◌, ◌<◌, [], ◌∷◌, ◌++◌, length, drop};
ghost use Rattle.dictionary.specs.Meaning.{most};
ghost use Rattle.trie.specs.Bits.{bit, number};
ghost use Rattle.trie.specs.Trie.{Fits, Hooked, Linked, PartsFrom, Rooted, Sound, child, crits, keys, link_number};
ghost use Rattle.trie.specs.TrieMeaning.{Forks};

use crate::bits::bit_at;
use crate::place::Place;
use crate::row::{Hook, Link, TrieRow};
use dictionary::key::Key;
use dictionary::rows::Slot;

/// A row for the next key: its leaf, and an inner node that tests the place, with the leaf on the key's own side and the
/// hook's link on the other.
fn fork<K: Key>(next: u32, k: &K, place: Place, hook: Hook) -> TrieRow<K>
    requires next { next < 16777216 }
    requires link { Fits (link_number hook.link) }
    ensures { Forks K.Key.spelling next k.now place hook result }
{
    let key = *k;
    let leaf = Link::Leaf(next).packed();
    let link = hook.link.packed();
    let (left, right) = if bit_at(k, place) {
        (link, leaf)
    } else {
        (leaf, link)
    };
    TrieRow {
        key,
        place,
        left,
        right,
    }
}

// A function of the rows and no method: on a trie each write has to keep its ghost fields, and a link to the new row leads outside them until the count grows.
/// Hangs a row for the key, which first differs at the place from the keys that it meets. The link to the root afterwards.
pub(crate) fn graft<K: Key>(
    rows: &mut [TrieRow<K>],
    used: usize,
    root: Link,
    k: &K,
    place: Place,
    hook: Hook,
) -> Link
    requires room { used < most (length rows.old) }
    requires linked { Linked rows.old used }
    requires rooted { Rooted rows.old used (link_number root) }
    requires sound { Sound rows.old K.Key.spelling used (link_number root) }
    requires parts { PartsFrom rows.old K.Key.spelling used (link_number root) k.now (number place) }
    requires hooked { Hooked (child rows.old) (crits rows.old) used (link_number root) (bit (K.Key.spelling k.now)) (number place) hook }
    ensures linked { Linked rows.new (used + 1) }
    ensures rooted { Rooted rows.new (used + 1) (link_number result) }
    ensures held { keys rows.new (used + 1) ≡ keys rows.old used ++ k.now ∷ [] }
    ensures sound { Sound rows.new K.Key.spelling (used + 1) (link_number result) }
    ensures rest { drop (used + 1) rows.new ≡ drop (used + 1) rows.old }
{
    let next = used as u32;
    rows[used] = fork(next, k, place, hook);
    let node = Link::Inner(next);
    match hook.slot {
        Slot::Root => return node,
        Slot::Left(p) => rows[p as usize].left = node.packed(),
        Slot::Right(p) => rows[p as usize].right = node.packed(),
    }
    root
}
