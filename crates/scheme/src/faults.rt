//! Why a building ends before it has a signature.
ghost use Rattle.std.specs.Prelude.{◌≡◌};
ghost use Rattle.scheme.specs.Faults.{build_fault};
ghost use Rattle.scheme.specs.declared.faults.BuildFault.TheVariants.{Compositions, Elements};

use dictionary::refusals::Full;
use fault::{Fault, Layer};

/// A dictionary is full. The fault of the dictionary is inside, whole.
#[derive(Clone, Copy, Debug, PartialEq, Eq)]
pub enum BuildFault {
    /// The dictionary of elements, at this position of the list.
    Elements { position: usize, full: Full },
    /// The dictionary of compositions, while the row of this round was in hand.
    Compositions { round: u8, full: Full },
}

// Two conversions and no generic one: what stands beside Full says which dictionary was full.
/// Full of the dictionary of elements, with the position.
impl From<(usize, Full)> for BuildFault {
    ghost from_gives = { λ e r. r ≡ Elements e.0 e.1 };

    fn from(e: (usize, Full)) -> BuildFault {
        let (position, full) = e;
        BuildFault::Elements { position, full }
    }
}

/// Full of the dictionary of compositions, with the round of the row in hand.
impl From<(u8, Full)> for BuildFault {
    ghost from_gives = { λ e r. r ≡ Compositions e.0 e.1 };

    fn from(e: (u8, Full)) -> BuildFault {
        let (round, full) = e;
        BuildFault::Compositions { round, full }
    }
}

/// Number, layer and place.
impl From<BuildFault> for Fault {
    ghost from_gives = { λ e r. r ≡ build_fault e };

    fn from(e: BuildFault) -> Fault {
        match e {
            BuildFault::Elements { position, .. } => Fault {
                number: 9,
                layer: Layer::ElementDictionary,
                place: position,
            },
            BuildFault::Compositions { round, .. } => Fault {
                number: 10,
                layer: Layer::CompositionDictionary,
                place: usize::from(round),
            },
        }
    }
}
