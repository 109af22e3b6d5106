// Key types: what a dictionary asks of the values that it numbers.
ghost use Rattle.std.specs.Prelude.{◌≡◌, ℕ, List, length, slice_index};
ghost use Rattle.std.specs.declared.cmp.Ordering.TheVariants.{Equal};
ghost use Rattle.std.specs.declared.cmp.Ordering.{Ordering as Order};
ghost use Rattle.std.specs.Cmp.{IsTotalOrder};

use std::cmp::Ordering;

/// A value with an order and a spelling. The order is total and says equal exactly for the same value. A spelling has
/// the same number of bytes for each value of the type, and different values have different spellings. Nothing ties
/// the order to the spelling.
pub trait Key: Copy {
    ghost order: { Self → Self → Order };

    ghost spelling: { Self → List ℕ };

    ghost size: { ℕ };

    fn compare(&self, other: &Self) -> Ordering
        ensures { result ≡ order self.now other.now };

    /// The number of bytes in a spelling.
    fn width() -> usize
        ensures { result ≡ size };

    /// Byte i of the spelling, counted from 0, and 0 past its end.
    fn byte(&self, i: usize) -> u8
        ensures { result ≡ slice_index (spelling self.now) i };

    // One of std's total orders. It follows that a value is equal to itself.
    ghost total: { IsTotalOrder order };

    ghost same: { (x y : Self) → order x y ≡ Equal → x ≡ y };

    ghost long: { (x : Self) → length (spelling x) ≡ size };

    ghost apart: { (x y : Self) → spelling x ≡ spelling y → x ≡ y };
}
