//! The line reader: a file, and the place up to which it is read.
ghost use Rattle.std.specs.Prelude.{◌≡◌, ◌≤◌, length};

/// Stands at the start of a line of the file, or at its end.
#[derive(Drop)]
pub struct LineReader<'a> {
    pub(crate) file: &'a [u8],
    pub(crate) place: usize,
    /// How many lines are read.
    pub(crate) lines: usize,
    ghost inside: { place ≤ length file.now },
    ghost counted: { lines ≤ place },
}

impl<'a> LineReader<'a> {
    /// A reader at the start of the file.
    pub fn new(file: &'a [u8]) -> LineReader<'a>
        ensures { (result.file.now ≡ file.now) × (result.place ≡ 0) × (result.lines ≡ 0) }
    {
        LineReader {
            file,
            place: 0,
            lines: 0,
        }
    }

    /// Where in the file the reader stands.
    pub fn place(&self) -> usize
        ensures { result ≡ self.now.place }
    {
        self.place
    }

    /// How many lines are read.
    pub fn lines(&self) -> usize
        ensures { result ≡ self.now.lines }
    {
        self.lines
    }
}
