// The rows that a make is lent: how many of them it uses, the key that each holds, and the links between them.
ghost use Rattle.std.specs.Prelude.{◌≡◌, map};
ghost use Rattle.dictionary.specs.Meaning.{most, key_of, or_absent};

use crate::refusals::Absent;

const LIMIT: usize = 16_777_216;

/// The capacity over so many rows.
pub fn capacity_over(rows: usize) -> usize
    ensures { result ≡ most rows }
{
    rows.min(LIMIT)
}

/// A link of a tree over rows: the one to the root, or one on a side of a row. Rows count from 0 here.
#[derive(Clone, Copy, Debug, PartialEq, Eq)]
pub enum Slot {
    Root,
    Left(u32),
    Right(u32),
}

/// A row that holds a key, beside what a make keeps there of its own.
pub trait Row<K> {
    ghost key: { Self → K };

    fn key(&self) -> K
        ensures { result ≡ key self.now };
}

/// Key n, where these rows hold the keys.
pub fn key_in<K, R: Row<K>>(held: &[R], n: u32) -> Result<K, Absent>
    ensures { result ≡ or_absent (key_of (map R.Row.key held.now) n) }
{
    let i = (n as usize).checked_sub(1).ok_or(Absent)?;
    let row = held.get(i).ok_or(Absent)?;
    Ok(row.key())
}
