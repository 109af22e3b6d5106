// The count of asks.
ghost use Rattle.std.specs.Prelude.{◌≡◌};
ghost use Rattle.dictionary.specs.Meaning.{more};

/// One ask more: the count stops at 2^64 − 1.
pub fn one_more(asks: u64) -> u64
    ensures { result ≡ more asks }
{
    asks.saturating_add(1)
}
