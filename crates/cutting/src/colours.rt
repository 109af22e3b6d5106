//! New colours: one made of two colours, and one that no neighbour has.
ghost use Rattle.std.specs.Prelude.{◌≡◌, ◌%◌, ◌<◌, MatchOption, ◌≢◌};
ghost use Rattle.cutting.specs.Places.{near};
ghost use Rattle.cutting.specs.Rule.{bit, free, fresh, lowest};

/// The number of the lowest bit in which `x` and `y` differ.
#[tactic(auto, using(crate::proofs::Machine::trailing_lowest, crate::proofs::Machine::trailing_lt))]
fn lowest_difference(x: u32, y: u32) -> u32
    requires { x ≢ y }
    ensures is { result ≡ lowest 32 x y }
    ensures below { result < 32 }
{
    (x ^ y).trailing_zeros()
}

/// Bit `b` of `x`.
#[tactic(auto, using(crate::proofs::Machine::bit_is))]
fn bit_of(x: u32, b: u32) -> u32
    requires { b < 32 }
    ensures is { result ≡ bit b x }
    ensures below { result < 2 }
{
    (x >> b) % 2
}

/// The new colour of a place with colour `own` whose left neighbour has colour `before`: twice the number of the lowest bit in which they differ, and that
/// bit of `own`. Equal neighbours, of which the rule says nothing, give 64.
// 64 and no Option: the marks are those of the rule for every row, and a colour is wanted at each place.
#[tactic(auto, using(crate::proofs::Machine::equal_neighbours))]
fn fresh_colour(before: u32, own: u32) -> u8
    ensures { result ≡ fresh before own }
{
    if before == own {
        return 64;
    }
    let b = lowest_difference(before, own);
    (2 * b + bit_of(own, b)) as u8
}

/// The new colour of a place with colour `own` whose left neighbour, if it has one, has colour `before`.
pub(crate) fn recoloured(before: Option<u32>, own: u32) -> u8
    ensures { MatchOption before (result ≡ own % 2) (λ b. result ≡ fresh b own) }
{
    match before {
        Some(before) => fresh_colour(before, own),
        None => (own % 2) as u8,
    }
}

/// The smallest of 0, 1 and 2 that is neither `a` nor `b`.
pub(crate) fn free_colour(a: Option<u8>, b: Option<u8>) -> u8
    ensures { result ≡ free (near a) (near b) }
{
    if a != Some(0) && b != Some(0) {
        0
    } else if a != Some(1) && b != Some(1) {
        1
    } else {
        2
    }
}
