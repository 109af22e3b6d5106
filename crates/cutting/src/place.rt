//! A place of a row of colours, and what the rule says there.
ghost use Rattle.std.specs.Prelude.{◌≡◌, ◌<◌, length};
ghost use Rattle.cutting.specs.Places.{Ruled, place};
ghost use Rattle.cutting.specs.Rows.{at, mark};
ghost use Rattle.cutting.specs.Rule.{peak, recolour, reduce};

use crate::colours::{free_colour, recoloured};

/// A place of a row: its number, its colour, and those of its neighbours, where it has them.
#[derive(Drop, Clone, Copy)]
pub(crate) struct Place {
    pub index: usize,
    pub before: Option<u8>,
    pub own: u8,
    pub after: Option<u8>,
}

impl Place {
    /// Place `index` of `colours`.
    pub(crate) fn of(colours: &[u8], index: usize) -> Place
        requires { index < length colours.now }
        ensures { result ≡ place colours.now index }
    {
        Place {
            index,
            before: index.checked_sub(1).map(|left| colours[left]),
            own: colours[index],
            after: colours.get(index + 1).copied(),
        }
    }

    /// The new colour in a later recolouring.
    #[tactic(auto, using(std::proofs::lemmas::Grind::common_steps, crate::proofs::Places::recolour_at))]
    pub(crate) fn recoloured(self) -> u8
        ensures { Ruled (λ xs. recolour (at xs)) self result }
    {
        recoloured(self.before.map(u32::from), u32::from(self.own))
    }

    /// The new colour in the reduction of colour `k`: one that no neighbour has, if the place has colour `k`.
    #[tactic(auto, using(std::proofs::lemmas::Bool::Decides::nat_tests, crate::proofs::Places::reduce_at))]
    pub(crate) fn reduced(self, k: u8) -> u8
        ensures { Ruled (λ xs. reduce (length xs) k (at xs)) self result }
    {
        if self.own == k {
            free_colour(self.before, self.after)
        } else {
            self.own
        }
    }

    /// Whether a block begins here: at place 0, and where the colour exceeds both neighbours', but for place 1 and the last place.
    #[tactic(auto, using(std::proofs::lemmas::Bool::Decides::nat_tests, crate::proofs::Places::peak_at))]
    fn begins_block(self) -> bool
        ensures { Ruled (λ xs. peak (length xs) (at xs)) self result }
    {
        match (self.before, self.after) {
            (None, _) => true,
            (Some(before), Some(after)) => self.index >= 2 && before < self.own && after < self.own,
            (Some(_), None) => false,
        }
    }

    /// 1 if a block begins here, else 0.
    pub(crate) fn mark(self) -> u8
        ensures { Ruled (λ xs i. mark (peak (length xs) (at xs) i)) self result }
    {
        u8::from(self.begins_block())
    }
}
