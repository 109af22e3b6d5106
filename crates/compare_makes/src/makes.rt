// Both makes over the same calls.
ghost use Rattle.std.specs.Prelude.{◌≡◌, length};
ghost use Rattle.compare_makes.specs.Totals.{Carried};

use dictionary::history::side_by_side;
use dictionary::{Answer, Call, Dictionary, Key};
use search_tree::{SearchTree, TreeRow};
use trie::{Trie, TrieRow};

/// The size and the asks of a dictionary.
#[derive(Clone, Copy, Debug, PartialEq, Eq)]
pub struct Counts {
    pub size: u32,
    pub asks: u64,
}

/// Those of both makes.
#[derive(Clone, Copy, Debug, PartialEq, Eq)]
pub struct Totals {
    pub tree: Counts,
    pub trie: Counts,
}

fn counts_of<K: Key, D: Dictionary<K>>(dictionary: &D) -> Counts
    ensures size { result.size ≡ length (D.Dictionary.meaning dictionary.now).keys }
    ensures asks { result.asks ≡ (D.Dictionary.meaning dictionary.now).asks }
{
    Counts {
        size: dictionary.size(),
        asks: dictionary.asks(),
    }
}

// Rows and answers are the caller's memory, of two types and for two makes: four slices.
/// Begins both makes over the rows and carries out the calls on each. Begun at one capacity, they answer every list of
/// calls alike, with equal sizes and asks afterwards.
pub fn compare<'a, K: Key>(
    tree_rows: &'a mut [TreeRow<K>],
    trie_rows: &'a mut [TrieRow<K>],
    calls: &[Call<K>],
    tree_answers: &mut [Answer<K>],
    trie_answers: &mut [Answer<K>],
) -> Totals
    ensures tree { Carried K.Key.order (length tree_rows.old) calls.now tree_answers.old tree_answers.new result.tree.size result.tree.asks }
    ensures trie { Carried K.Key.order (length trie_rows.old) calls.now trie_answers.old trie_answers.new result.trie.size result.trie.asks }
    ensures alike { length tree_rows.old ≡ length trie_rows.old → tree_answers.old ≡ trie_answers.old → (tree_answers.new ≡ trie_answers.new) × (result.tree ≡ result.trie) }
{
    let mut tree = SearchTree::new(tree_rows);
    let mut trie = Trie::new(trie_rows);
    side_by_side(&mut tree, &mut trie, calls, tree_answers, trie_answers);
    Totals {
        tree: counts_of(&tree),
        trie: counts_of(&trie),
    }
}
