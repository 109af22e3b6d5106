//! The fields of a line, each a part of the file's bytes with its place.

/// A field of a line, by what it is to say: a part of the file.
#[derive(Clone, Copy, Debug)]
pub enum Field<'a> {
    Circuit(&'a [u8]),
    Kind(&'a [u8]),
    Digits(&'a [u8]),
}

/// A field, and where in the file it begins.
#[derive(Clone, Copy, Debug)]
pub struct Placed<'a> {
    pub place: usize,
    pub field: Field<'a>,
}

/// The four fields of a line.
#[derive(Clone, Copy, Debug)]
pub struct Fields<'a> {
    pub circuit: Placed<'a>,
    pub kind: Placed<'a>,
    pub limit: Placed<'a>,
    pub chain: Placed<'a>,
}
