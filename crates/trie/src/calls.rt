// A new trie, and its calls.
ghost use Rattle.std.specs.Prelude.{◌≡◌, length};
ghost use Rattle.dictionary.specs.Does.{Does};
ghost use Rattle.dictionary.specs.Facts.{different_from, held_within, most_small, within_rows};
ghost use Rattle.dictionary.specs.Meaning.{new, finding, naming, keying};
ghost use Rattle.dictionary.specs.Rows.{beyond};
ghost use Rattle.trie.specs.Trie.{link_number};
ghost use Rattle.trie.specs.TrieFacts.{one_place};
ghost use Rattle.trie.specs.TrieMeaning.{meaning_of};

use crate::patricia::Trie;
use crate::row::{Link, TrieRow};
use dictionary::Dictionary;
use dictionary::asks::one_more;
use dictionary::key::Key;
use dictionary::refusals::{Absent, Full};
use dictionary::rows::{capacity_over, key_in};

impl<'a, K: Key> Trie<'a, K> {
    /// A trie with no keys and no asks. Its capacity is the number of rows, up to 16,777,216; what they hold does not
    /// matter.
    pub fn new(rows: &'a mut [TrieRow<K>]) -> Trie<'a, K>
        ensures meaning { meaning_of result ≡ new (length rows.old) }
        ensures rows { result.rows.now ≡ rows.old }
        ensures lent { result.rows.ghost_name ≡ rows.entry.ghost_name }
    {
        Trie {
            rows,
            used: 0,
            root: Link::Leaf(0),
            asks: 0,
        }
    }
}

// The tree's and the trie's methods are alike, each over its own struct: a struct of what both have is not covered, as `search_tree/src/tree.rt` says.
// The clauses `rows`, `beyond` and `lent` compare the rows before and after a call, which no ghost field can.
impl<'a, K: Key> Dictionary<K> for Trie<'a, K> {
    ghost meaning = { meaning_of };

    ghost different = { λ t. different_from (meaning_of t).keys (one_place K.Key.spelling t.rows.now t.used (link_number t.root) (within_rows t.long) t.linked t.rooted t.sound) };

    ghost within = { λ t. held_within (λ w. w.key) t.rows.now t.used t.long };

    ghost small = { λ t. most_small (length t.rows.now) };

    ghost counted = { λ t. t.counted };

    fn size(&self) -> u32 {
        self.used as u32
    }

    fn capacity(&self) -> u32 {
        capacity_over(self.rows.len()) as u32
    }

    fn asks(&self) -> u64 {
        self.asks
    }

    fn find(&mut self, k: &K) -> Option<u32>
        ensures does { Does meaning_of self.old self.new result (finding K.Key.order k.now) }
        ensures rows { self.new.rows.now ≡ self.old.rows.now }
        ensures lent { self.new.rows.ghost_name ≡ self.old.rows.ghost_name }
    {
        self.asks = one_more(self.asks);
        self.look(k).ok().map(|i| i + 1)
    }

    fn name(&mut self, k: &K) -> Result<u32, Full>
        ensures does { Does meaning_of self.old self.new result (naming K.Key.order k.now) }
        ensures beyond { beyond self.new.rows.now ≡ beyond self.old.rows.now }
        ensures lent { self.new.rows.ghost_name ≡ self.old.rows.ghost_name }
    {
        self.asks = one_more(self.asks);
        match self.look(k) {
            Ok(i) => Ok(i + 1),
            Err(place) => self.insert(k, place),
        }
    }

    fn key(&mut self, n: u32) -> Result<K, Absent>
        ensures does { Does meaning_of self.old self.new result (keying n) }
        ensures rows { self.new.rows.now ≡ self.old.rows.now }
        ensures lent { self.new.rows.ghost_name ≡ self.old.rows.ghost_name }
    {
        self.asks = one_more(self.asks);
        key_in(self.held(), n)
    }
}
