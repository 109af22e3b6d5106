//! The composition as a key of a dictionary, for any contents of its fields.
ghost use Rattle.std.specs.Prelude.{◌≡◌, slice_index};
ghost use Rattle.std.specs.Cmp.{nat_cmp_total, then_total, on_total};
ghost use Rattle.scheme.specs.Compositions.{in_order, numbers, spelled};
ghost use Rattle.scheme.specs.Spellings.{same_key, spelled_long, spelled_apart};

use crate::composition::Composition;
use dictionary::four_bytes::byte_of;
use dictionary::key::Key;
use std::cmp::Ordering;

/// Number j of those that are spelled in four bytes: the length, then p1 to p6.
fn number(c: &Composition, j: usize) -> u32
    ensures { result ≡ slice_index (numbers c.now) j }
{
    let numbers = [c.length, c.p1, c.p2, c.p3, c.p4, c.p5, c.p6];
    numbers.get(j).copied().unwrap_or(0)
}

impl Key for Composition {
    ghost order = { in_order };

    ghost spelling = { spelled };

    ghost size = { 30 };

    ghost total = { then_total (on_total (λ c. c.kind) nat_cmp_total) (then_total (on_total (λ c. c.round) nat_cmp_total) (then_total (on_total (λ c. c.length) nat_cmp_total) (then_total (on_total (λ c. c.p1) nat_cmp_total) (then_total (on_total (λ c. c.p2) nat_cmp_total) (then_total (on_total (λ c. c.p3) nat_cmp_total) (then_total (on_total (λ c. c.p4) nat_cmp_total) (then_total (on_total (λ c. c.p5) nat_cmp_total) (on_total (λ c. c.p6) nat_cmp_total)))))))) };

    ghost same = { same_key };

    ghost long = { spelled_long };

    ghost apart = { spelled_apart };

    fn compare(&self, other: &Composition) -> Ordering {
        self.cmp(other)
    }

    fn width() -> usize {
        30
    }

    // By the place: the spelling is a format, of which the trie asks one byte at a time.
    fn byte(&self, i: usize) -> u8 {
        if i == 0 {
            self.kind
        } else if i == 1 {
            self.round
        } else if i < 30 {
            byte_of(number(self, (i - 2) / 4), (i - 2) % 4)
        } else {
            0
        }
    }
}
