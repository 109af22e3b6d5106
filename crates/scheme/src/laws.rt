//! Facts of the rule and of compositions. The functions do nothing: their contracts are the facts.
ghost use Rattle.std.specs.Prelude.{◌≡◌};
ghost use Rattle.scheme.specs.Compositions.{in_order};
ghost use Rattle.scheme.specs.declared.composition.Composition.{Composition as TheComposition};
ghost use Rattle.scheme.specs.Worked.{WorkedLists};

use crate::composition::Composition;

/// What building gives for the worked lists, computed.
pub fn worked_lists()
    ensures { WorkedLists }
{}

/// The order that compositions derive is by kind, round, length and p1 to p6.
pub fn compositions_ordered()
    ensures { (x y : TheComposition) → ⟦<Composition as Ord>⟧.cmp x y ≡ in_order x y }
{}
