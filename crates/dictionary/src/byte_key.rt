// The byte as a key: ordered as a number, spelled as itself.
ghost use Rattle.std.specs.Prelude.{[], ◌∷◌};
ghost use Rattle.std.specs.Ordering.{nat_cmp};
ghost use Rattle.std.specs.Cmp.{nat_cmp_total};
ghost use Rattle.dictionary.specs.Orders.{same_number};
ghost use Rattle.std.proofs.Common.{rules};

use crate::key::Key;
use std::cmp::Ordering;

impl Key for u8 {
    ghost order = { nat_cmp };

    ghost spelling = { λ x. x ∷ [] };

    ghost size = { 1 };

    ghost total = { nat_cmp_total };

    ghost same = { same_number };

    ghost long = { Prim.search rules };

    ghost apart = { Prim.search rules };

    fn compare(&self, other: &u8) -> Ordering {
        self.cmp(other)
    }

    fn width() -> usize {
        1
    }

    fn byte(&self, i: usize) -> u8 {
        if i == 0 { *self } else { 0 }
    }
}
