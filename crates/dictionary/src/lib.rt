// Dictionaries: keys, numbered from 1 in the order of their arrival.
#![tactic(auto)]

ghost use Rattle.std.specs.Prelude.{◌≡◌, ◌^◌, ◌<◌, ◌≤◌, length};
ghost use Rattle.dictionary.specs.Does.{Does};
ghost use Rattle.dictionary.specs.Meaning.{Meaning, Different, finding, naming, keying};

pub use calls::{Answer, Call};
pub use key::Key;
pub use refusals::{Absent, Full};

pub mod asks;
pub mod byte_key;
pub mod calls;
pub mod four_bytes;
pub mod history;
pub mod key;
pub mod lent;
pub mod refusals;
pub mod rows;
pub mod worked;

/// A list of keys, all different; a fixed capacity of at most 16,777,216, never exceeded; a count of asks. Key n is the
/// n-th of the list, counted from 1.
pub trait Dictionary<K: Key> {
    ghost meaning: { Self → Meaning K };

    // The facts of every dictionary, which clauses can cite.
    ghost different: { (d : Self) → Different (meaning d).keys };

    ghost within: { (d : Self) → length (meaning d).keys ≤ (meaning d).capacity };

    ghost small: { (d : Self) → (meaning d).capacity ≤ 16777216 };

    ghost counted: { (d : Self) → (meaning d).asks < 2 ^ 64 };

    /// The number of keys. It is no ask, and neither are the next two.
    fn size(&self) -> u32
        ensures { result ≡ length (meaning self.now).keys };

    fn capacity(&self) -> u32
        ensures { result ≡ (meaning self.now).capacity };

    fn asks(&self) -> u64
        ensures { result ≡ (meaning self.now).asks };

    /// The key's number, or nothing if it isn't in the list.
    fn find(&mut self, k: &K) -> Option<u32>
        ensures { Does meaning self.old self.new result (finding K.Key.order k.now) };

    /// The key's number; a key that isn't in the list is appended, and Full if there is no room.
    fn name(&mut self, k: &K) -> Result<u32, Full>
        ensures { Does meaning self.old self.new result (naming K.Key.order k.now) };

    /// Key n, or Absent.
    fn key(&mut self, n: u32) -> Result<K, Absent>
        ensures { Does meaning self.old self.new result (keying n) };
}
