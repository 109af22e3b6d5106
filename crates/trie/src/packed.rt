// The links of a row, as it stores them.
ghost use Rattle.std.specs.Prelude.{◌≡◌};
ghost use Rattle.trie.specs.Trie.{Fits, link_number, unpacked};

use crate::row::Link;

/// The first number that means an inner node.
const INNER: u32 = 1 << 24;

// A number and no `Link`: that is a tag of four bytes more, and a caller hands in millions of rows.
/// A link in four bytes: a leaf below 2^24, else 2^24 more than an inner node.
#[derive(Clone, Copy)]
pub(crate) struct PackedLink(u32);

impl Link {
    pub(crate) fn packed(self) -> PackedLink
        requires { Fits (link_number self) }
        ensures { unpacked result.0 ≡ link_number self }
    {
        match self {
            Link::Leaf(i) => PackedLink(i),
            Link::Inner(i) => PackedLink(INNER + i),
        }
    }
}

impl PackedLink {
    pub(crate) fn link(self) -> Link
        ensures { link_number result ≡ unpacked self.0 }
    {
        if self.0 < INNER {
            Link::Leaf(self.0)
        } else {
            Link::Inner(self.0 - INNER)
        }
    }
}
