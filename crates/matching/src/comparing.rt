//! Two lists of records compared.
ghost use Rattle.std.specs.Prelude.{◌≡◌};
ghost use Rattle.std.specs.List.{prefix_len, zip};
ghost use Rattle.matching.specs.Comparing.{Common};

use lines::record::Record;

// A function of its own, whose contract mirrors the chain: what it means is `common_prefix`'s.
/// How many pairs, from the first on, are of equal records.
fn equal_pairs(xs: &[Record], ys: &[Record]) -> usize
    ensures { result ≡ prefix_len (λ p. ⟦<Record as PartialEq>⟧.eq p.0 p.1) (zip xs.now ys.now) }
{
    xs.iter().zip(ys).take_while(|(x, y)| x == y).count()
}

/// The length of the longest common prefix.
pub fn common_prefix(xs: &[Record], ys: &[Record]) -> usize
    ensures { Common xs.now ys.now result }
{
    equal_pairs(xs, ys)
}
