//! What a refusal tells: a number, a layer and a place.
#![tactic(auto)]

/// Where a refusal is checked.
#[derive(Clone, Copy, Debug, PartialEq, Eq)]
pub enum Layer {
    Programs,
    LineReader,
    Store,
    ElementDictionary,
    CompositionDictionary,
}

/// What a refusal tells. What the place counts depends on the number.
#[derive(Clone, Copy, Debug, PartialEq, Eq)]
pub struct Fault {
    // A number, since it is what a refusal tells to the outside; inside, the reasons are enums that turn into a fault by `From`.
    pub number: u8,
    pub layer: Layer,
    pub place: usize,
}
