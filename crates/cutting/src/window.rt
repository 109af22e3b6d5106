//! A window on a row: the blocks of a part of it, as far as that part alone says where they begin.
ghost use Rattle.std.specs.Prelude.{◌≡◌, ◌<◌, ◌≤◌, MatchOption};
ghost use Rattle.cutting.specs.Window.{Answer};

mod passes;

/// A part of a row, of at most 96 names, by value. It is told whether the row begins with it, and whether the row ends with it.
///
/// 96 places are enough where one row keeps a front of an old row and an end of another around a new middle. There the window is the part between two old
/// block boundaries, at most 13 names from the middle on either side, with 8 more names of context. The middle of a round is made of the names of the round
/// below, two names or more to a block, and of one more on either side: with at most 30 names there are at most (13 + 30 + 13) / 2 + 2 = 30 above them. So a
/// window has at most 8 + 13 + 30 + 13 + 8 = 72 names.
// An array by value and its length: so a window is handed on, and its old colours are read while new ones are made.
#[derive(Drop, Clone, Copy)]
pub struct Window {
    names: [u32; 96],
    len: usize,
    first: bool,
    last: bool,
    ghost fits: { len ≤ 96 },
}

impl Window {
    /// The window of the first `len` of `names`; nothing if there are more than 96. The row begins with it if `first`, and ends with it if `last`.
    pub fn new(names: [u32; 96], len: usize, first: bool, last: bool) -> Option<Window>
        ensures { MatchOption result (96 < len) (λ w. (w.names ≡ names) × (w.len ≡ len) × (w.first ≡ first) × (w.last ≡ last)) }
    {
        if len > 96 {
            return None;
        }
        Some(Window {
            names,
            len,
            first,
            last,
        })
    }

    // Bytes and no bools, as for a row: one walk serves both.
    /// A 1 at each place where a block begins, and a 0 elsewhere. What it says of a row is to be believed from place 8 on, or from the beginning if the row
    /// begins with the window, and where 4 more names follow in the window, or to its end if the row ends with it.
    pub fn block_starts(&self) -> [u8; 96]
        ensures { Answer self.now.names self.now.len self.now.first self.now.last result }
    {
        passes::marks(*self)
    }
}
