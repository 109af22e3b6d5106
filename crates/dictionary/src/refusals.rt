// What the calls of a dictionary refuse with.

/// No room: the key is absent and the dictionary has as many keys as it can hold.
#[derive(Clone, Copy, Debug, PartialEq, Eq)]
pub struct Full {
    pub size: u32,
}

/// No key has that number: it is 0 or above the size.
#[derive(Clone, Copy, Debug, PartialEq, Eq)]
pub struct Absent;
