//! The blocks of a whole row: every pass goes once along the caller's bytes and leaves its result in them.
ghost use Rattle.std.specs.Prelude.{◌≡◌, ◌<◌, length, MatchResult};
ghost use Rattle.cutting.specs.Passes.{coloured, marks_of, starts, without};
ghost use Rattle.cutting.specs.Places.{Made};
ghost use Rattle.cutting.specs.Rows.{Marked};

use crate::colours::recoloured;
use crate::place::Place;

/// The scratch has fewer places than the row has names.
#[derive(Drop, Debug, Clone, Copy, PartialEq, Eq)]
pub struct NoRoom;

// By the place and no `zip`: of what is written through a zipped `iter_mut` nothing is known after the loop.
/// The first recolouring, of the names themselves.
pub(crate) fn colour_names(names: &[u32], colours: &mut [u8])
    requires { length names.now ≡ length colours.old }
    ensures { colours.new ≡ coloured names.now }
{
    let mut before = None;
    for (i, name) in names.iter().enumerate() {
        colours[i] = recoloured(before, *name);
        before = Some(*name);
    }
}

/// All places take together the colour that `rule` gives them: from the left, with the left neighbour's old colour in `before`.
// By the index: the right neighbour is read while the place is written.
fn pass<F: Fn(Place) -> u8>(colours: &mut [u8], rule: F)
    requires { F.IsAlwaysCallable rule }
    ensures { Made (F.post rule) colours.old colours.new }
{
    let mut before = None;
    for i in 0..colours.len() {
        let place = Place {
            before,
            ..Place::of(colours, i)
        };
        colours[i] = rule(place);
        before = Some(place.own);
    }
}

/// A later recolouring.
fn colour_again(colours: &mut [u8])
    ensures { colours.new ≡ coloured colours.old }
{
    pass(colours, |place| place.recoloured());
}

/// All places of colour `k` take a colour that no neighbour has.
fn reduce_colour(colours: &mut [u8], k: u8)
    ensures { colours.new ≡ without k colours.old }
{
    pass(colours, |place| place.reduced(k));
}

/// Marks the places at which blocks begin, over the last colours.
fn mark_starts(colours: &mut [u8])
    ensures { colours.new ≡ starts colours.old }
{
    pass(colours, |place| place.mark());
}

// A line for each stage: a loop over 5, 4, 3 would need an invariant that says which stages are done, and hide their order.
/// The marks of a whole row, in a slice of its length.
fn mark_row(names: &[u32], bytes: &mut [u8])
    requires { length names.now ≡ length bytes.old }
    ensures { bytes.new ≡ marks_of names.now }
{
    colour_names(names, bytes);
    colour_again(bytes); // the second time
    colour_again(bytes); // the third time
    colour_again(bytes); // the fourth time
    reduce_colour(bytes, 5);
    reduce_colour(bytes, 4);
    reduce_colour(bytes, 3);
    mark_starts(bytes);
}

// Marks are bytes and no bools: the caller's scratch is bytes, in which the passes leave their colours.
/// Leaves in `marks` a 1 at each place of the row `names` where a block begins and a 0 at its other places. Bytes past the row stay as they were, and so
/// does a scratch that is too short, which is refused. It takes any numbers; where neighbours are equal, `fresh_colour` says how it goes on.
pub fn block_starts(names: &[u32], marks: &mut [u8]) -> Result<(), NoRoom>
    ensures { MatchResult result (λ _. Marked names.now marks.old marks.new) (λ _. (length marks.old < length names.now) × (marks.new ≡ marks.old)) }
{
    if marks.len() < names.len() {
        return Err(NoRoom);
    }
    mark_row(names, &mut marks[0..names.len()]);
    Ok(())
}
