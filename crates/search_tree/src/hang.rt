// One key more in a search tree.
ghost use Rattle.std.specs.Prelude.{◌≡◌, ◌+◌, ◌<◌, [], ◌∷◌, ◌++◌, length, drop, Err};
ghost use Rattle.dictionary.specs.Meaning.{most};
ghost use Rattle.search_tree.specs.Tree.{Linked, InOrder, ends, keys};

use crate::link::Link;
use crate::row::TreeRow;
use dictionary::key::Key;
use dictionary::rows::Slot;

// A function of the rows and no method: on a tree each write has to keep its ghost fields, and a link to the new row leads outside them until the count grows.
/// Hangs a row for the key at the slot where its walk ended.
pub(crate) fn hang<K: Key>(rows: &mut [TreeRow<K>], used: usize, slot: Slot, k: &K)
    requires room { used < most (length rows.old) }
    requires links { Linked used rows.old }
    requires slot { Err slot ≡ ends K.Key.order used rows.old k.now }
    requires ordered { InOrder K.Key.order used rows.old }
    ensures links { Linked (used + 1) rows.new }
    ensures keys { keys rows.new (used + 1) ≡ keys rows.old used ++ k.now ∷ [] }
    ensures ordered { InOrder K.Key.order (used + 1) rows.new }
    ensures rest { drop (used + 1) rows.new ≡ drop (used + 1) rows.old }
{
    rows[used] = TreeRow::blank(*k);
    let link = Link::of(Some(used as u32));
    match slot {
        Slot::Root => {}
        Slot::Left(p) => rows[p as usize].left = link,
        Slot::Right(p) => rows[p as usize].right = link,
    }
}
