//! The line record as a key of a dictionary, for any contents of its fields.
ghost use Rattle.std.specs.Cmp.{nat_cmp_total, then_total, on_total};
ghost use Rattle.std.specs.Cmp.Lexicographic.{nat_list_cmp_total};
ghost use Rattle.lines.specs.Keys.{in_order, spelled};
ghost use Rattle.lines.specs.Kinds.{letter_of};
ghost use Rattle.lines.specs.Spellings.{same_key, spelled_long, spelled_apart};

use crate::record::Record;
use dictionary::four_bytes::byte_of;
use dictionary::key::Key;
use std::cmp::Ordering;

impl Key for Record {
    ghost order = { in_order };

    ghost spelling = { spelled };

    ghost size = { 18 };

    ghost total = { then_total (on_total (λ r. r.circuit) nat_list_cmp_total) (then_total (on_total (λ r. letter_of r.kind) nat_cmp_total) (then_total (on_total (λ r. r.limit) nat_cmp_total) (on_total (λ r. r.chain) nat_cmp_total))) };

    ghost same = { same_key };

    ghost long = { spelled_long };

    ghost apart = { spelled_apart };

    fn compare(&self, other: &Record) -> Ordering {
        self.cmp(other)
    }

    fn width() -> usize {
        18
    }

    // By the place: the spelling is a format, of which the trie asks one byte at a time.
    fn byte(&self, i: usize) -> u8 {
        if i < 12 {
            self.circuit[i]
        } else if i == 12 {
            char::from(self.kind) as u8
        } else if i < 17 {
            byte_of(self.limit, i - 13)
        } else if i == 17 {
            self.chain
        } else {
            0
        }
    }
}
