// A key that isn't there.
ghost use Rattle.std.specs.Prelude.{◌≡◌, Err};
ghost use Rattle.dictionary.specs.Does.{Does};
ghost use Rattle.dictionary.specs.Meaning.{append};
ghost use Rattle.dictionary.specs.Rows.{beyond};
ghost use Rattle.trie.specs.Trie.{Meets, link_number};
ghost use Rattle.trie.specs.TrieMeaning.{meaning_of};

use crate::graft::graft;
use crate::patricia::Trie;
use crate::place::Place;
use crate::row::{Link, TrieRow};
use dictionary::key::Key;
use dictionary::refusals::Full;
use dictionary::rows::capacity_over;

impl<'a, K: Key> Trie<'a, K> {
    /// Appends a key that isn't there, if there is room: at the place where it first differs from the key that its walk met,
    /// or as the first.
    pub(crate) fn insert(&mut self, k: &K, place: Option<Place>) -> Result<u32, Full>
        requires { Meets self.old.rows.now K.Key.spelling self.old.used (link_number self.old.root) k.now (Err place) }
        ensures does { Does meaning_of self.old self.new result (append k.now) }
        ensures beyond { beyond self.new.rows.now ≡ beyond self.old.rows.now }
        ensures lent { self.new.rows.ghost_name ≡ self.old.rows.ghost_name }
    {
        let size = self.used as u32;
        if self.used >= capacity_over(self.rows.len()) {
            return Err(Full { size });
        }
        let Some(place) = place else {
            self.rows[0] = TrieRow::blank(*k);
            self.used = 1;
            self.root = Link::Leaf(0);
            return Ok(1);
        };
        let hook = self.hook(k, place);
        self.root = graft(self.rows, self.used, self.root, k, place, hook);
        self.used += 1;
        Ok(size + 1)
    }
}
