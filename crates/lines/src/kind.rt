//! The kinds of magnet, each with its letter.
ghost use Rattle.std.specs.Prelude.{◌≡◌};
ghost use Rattle.lines.specs.Kinds.{letter_of, IsKindOf};

/// A kind of magnet. The kinds are ordered as their letters are.
#[derive(Clone, Copy, Debug, PartialEq, Eq, PartialOrd, Ord)]
pub enum Kind {
    Dipole,
    Quadrupole,
    Sextupole,
    Steerer,
}

/// A byte that is no kind's letter.
#[derive(Clone, Copy, Debug, PartialEq, Eq)]
pub struct UnknownLetter(pub u8);

/// The kind with this letter.
impl TryFrom<u8> for Kind {
    type Error = UnknownLetter;

    ghost try_from_gives = { IsKindOf };

    fn try_from(letter: u8) -> Result<Kind, UnknownLetter> {
        match char::from(letter) {
            'D' => Ok(Kind::Dipole),
            'Q' => Ok(Kind::Quadrupole),
            'S' => Ok(Kind::Sextupole),
            'T' => Ok(Kind::Steerer),
            _ => Err(UnknownLetter(letter)),
        }
    }
}

/// The kind's letter.
impl From<Kind> for char {
    ghost from_gives = { λ k c. c ≡ letter_of k };

    fn from(kind: Kind) -> char {
        match kind {
            Kind::Dipole => 'D',
            Kind::Quadrupole => 'Q',
            Kind::Sextupole => 'S',
            Kind::Steerer => 'T',
        }
    }
}
