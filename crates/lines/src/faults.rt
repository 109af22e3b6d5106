//! What the line reader refuses, and the fault that it tells.
ghost use Rattle.std.specs.Prelude.{◌≡◌};
ghost use Rattle.lines.specs.Faults.{line_fault};

use fault::{Fault, Layer};

/// Why the line reader stops at a line, which is counted from 1.
#[derive(Clone, Copy, Debug, PartialEq, Eq)]
pub enum LineFault {
    /// The line is no record in the layout.
    NotARecord { line: usize },
    /// The line is lawful, and no output row is free for it.
    NoRow { line: usize },
}

impl From<LineFault> for Fault {
    ghost from_gives = { λ e f. f ≡ line_fault e };

    fn from(e: LineFault) -> Fault {
        let layer = Layer::LineReader;
        match e {
            LineFault::NotARecord { line } => Fault {
                number: 1,
                layer,
                place: line,
            },
            LineFault::NoRow { line } => Fault {
                number: 2,
                layer,
                place: line,
            },
        }
    }
}
