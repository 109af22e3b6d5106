//! Laws of line files and their records. The functions do nothing: their contracts are the laws.
ghost use Rattle.std.specs.Prelude.{◌≡◌, Decides};
ghost use Rattle.lines.specs.Keys.{in_order};
ghost use Rattle.lines.specs.Laws.{ReadsBack, SameAnswer};
ghost use Rattle.lines.specs.declared.record.Record.{Record as TheRecord};
ghost use Rattle.lines.specs.Records.{same_fields};

use crate::record::Record;

/// A file that is lawful lines written out, with or without leading zeros, reads back as those records.
pub fn lines_read_back()
    ensures { ReadsBack }
{}

/// Two files that agree up to the end of the first refused line get the same answer.
pub fn refusal_decides()
    ensures { SameAnswer }
{}

/// `==` on records answers true exactly for equal records, which are those whose four fields are equal.
pub fn records_equal()
    ensures decides { (x y : TheRecord) → Decides (⟦<Record as PartialEq>⟧.eq x y) (x ≡ y) }
    ensures answers { (x y : TheRecord) → ⟦<Record as PartialEq>⟧.eq x y ≡ same_fields x y }
{}

/// The order that records derive is by circuit, kind letter, limit and chain.
pub fn records_ordered()
    ensures { (x y : TheRecord) → ⟦<Record as Ord>⟧.cmp x y ≡ in_order x y }
{}
