//! Why a delivered file gives no list.
ghost use Rattle.std.specs.Prelude.{◌≡◌};
ghost use Rattle.matching.specs.Faults.{file_fault};
ghost use Rattle.matching.specs.declared.faults.FileFault.TheVariants.{Line};

use fault::{Fault, Layer};
use lines::faults::LineFault;

/// Why a delivered file gives no list.
#[derive(Clone, Copy, Debug, PartialEq, Eq)]
pub enum FileFault {
    /// The file cannot be opened or read.
    Unreadable,
    /// The file has more bytes than a program takes.
    TooLong,
    /// The line reader stopped.
    Line(LineFault),
    /// The file's list is empty.
    Empty,
}

impl From<LineFault> for FileFault {
    ghost from_gives = { λ e r. r ≡ Line e };

    fn from(e: LineFault) -> FileFault {
        FileFault::Line(e)
    }
}

impl From<FileFault> for Fault {
    ghost from_gives = { λ e f. f ≡ file_fault e };

    fn from(e: FileFault) -> Fault {
        match e {
            FileFault::Unreadable => Fault {
                number: 13,
                layer: Layer::Programs,
                place: 0,
            },
            FileFault::TooLong => Fault {
                number: 12,
                layer: Layer::Programs,
                place: 0,
            },
            FileFault::Line(e) => Fault::from(e),
            FileFault::Empty => Fault {
                number: 3,
                layer: Layer::Store,
                place: 0,
            },
        }
    }
}
