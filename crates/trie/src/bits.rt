// The bits of spellings.
ghost use Rattle.std.specs.Prelude.{◌≡◌, ◌<◌};
ghost use Rattle.trie.specs.Bits.{bit_of, bit, number, Parting};

use crate::place::Place;
use dictionary::key::Key;

/// Bit j of a byte, the highest first.
fn bit_of(b: u8, j: u8) -> bool
    requires { j < 8 }
    ensures { result ≡ bit_of b j }
{
    (b >> (7 - j)) % 2 == 1
}

/// The bit of the key's spelling at the place.
pub(crate) fn bit_at<K: Key>(k: &K, place: Place) -> bool
    ensures { result ≡ bit (K.Key.spelling k.now) (number place) }
{
    bit_of(k.byte(place.byte), place.bit)
}

// A `for` over the numbers of the bytes and no chain: there is no slice of them, and the closure of a `find_map` wants a contract of its own.
/// The first place in which two spellings differ.
pub(crate) fn parting<K: Key>(a: &K, b: &K) -> Option<Place>
    ensures { Parting (K.Key.spelling a.now) (K.Key.spelling b.now) result }
{
    for i in 0..K::width() {
        let x = a.byte(i) ^ b.byte(i);
        if x != 0 {
            return Some(Place {
                byte: i,
                bit: x.leading_zeros() as u8,
            });
        }
    }
    None
}
