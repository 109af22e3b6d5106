// The place of a bit in a spelling.
ghost use Rattle.std.specs.Prelude.{◌^◌, ◌<◌};

/// Bit `bit` of byte `byte`, both counted from 0, the byte's highest bit first. Places are ordered from the left.
#[derive(Clone, Copy, Debug, PartialEq, Eq, PartialOrd, Ord)]
pub struct Place {
    pub(crate) byte: usize,
    pub(crate) bit: u8,
    ghost small: { bit < 8 },
    ghost within: { byte < 2 ^ 64 },
}
