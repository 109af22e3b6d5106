// A number of 32 bits in a spelling.
ghost use Rattle.std.specs.Prelude.{◌≡◌, slice_index};
ghost use Rattle.dictionary.specs.Spelling.{four};

/// Byte i of the four of a number, the highest first and counted from 0, and 0 past the last.
pub fn byte_of(n: u32, i: usize) -> u8
    ensures { result ≡ slice_index (four n) i }
{
    n.to_be_bytes().get(i).copied().unwrap_or(0)
}
