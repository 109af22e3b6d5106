//! Compositions: what a name stands for.

/// A kind, a round, a length and six numbers; any contents go. Numbers that a kind does not mention are 0.
#[derive(Clone, Copy, Debug, PartialEq, Eq, PartialOrd, Ord)]
pub struct Composition {
    /// 1 an element, 2 a power, 3 a block.
    // A number and no enum: a composition is plain fields, and its order and spelling hold for any contents.
    pub kind: u8,
    pub round: u8,
    pub length: u32,
    pub p1: u32,
    pub p2: u32,
    pub p3: u32,
    pub p4: u32,
    pub p5: u32,
    pub p6: u32,
}
