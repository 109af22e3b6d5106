//! Numbers that must not be taken for one another.

/// The number of a key in the dictionary of elements.
#[derive(Clone, Copy, Debug, PartialEq, Eq)]
pub struct ElementNumber(pub u32);

/// The number of a key in the dictionary of compositions.
#[derive(Clone, Copy, Debug, PartialEq, Eq)]
pub struct Name(pub u32);
