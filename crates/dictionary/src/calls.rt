// Dictionary calls and their answers, as values.
use crate::refusals::{Absent, Full};

#[derive(Clone, Copy, Debug, PartialEq, Eq)]
pub enum Call<K> {
    Size,
    Capacity,
    Asks,
    Find(K),
    Name(K),
    Key(u32),
}

/// What the call of that name answers.
#[derive(Clone, Copy, Debug, PartialEq, Eq)]
pub enum Answer<K> {
    Size(u32),
    Capacity(u32),
    Asks(u64),
    Find(Option<u32>),
    Name(Result<u32, Full>),
    Key(Result<K, Absent>),
}
