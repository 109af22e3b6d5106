//! The passes over an array by value: the old colours are read while the new ones are made. So they are not those of `row`, which go over a slice in place.
ghost use Rattle.std.specs.Prelude.{◌≡◌, ℕ, ◌≤◌, ◌<◌, List, take};
ghost use Rattle.cutting.specs.Passes.{coloured, marks_of, starts, without};
ghost use Rattle.cutting.specs.Places.{Made};
ghost use Rattle.cutting.specs.Rows.{at};

use crate::place::Place;
use crate::row::colour_names;
use crate::window::Window;
use std::marker::Model;

// An array by value and its length, as the window: the old one is read while the new one is made.
/// The colours of the first `len` places of a window; zeros stand past them.
#[derive(Drop)]
struct Colours {
    places: [u8; 96],
    len: usize,
}

impl Model for Colours {
    ghost Value = { List ℕ };

    ghost view = { λ c. take c.len c.places };

    ghost invariant = { λ c. (c.len ≤ 96) × ((k : ℕ) → c.len ≤ k → at c.places k ≡ 0) };
}

impl Colours {
    /// The first recolouring, of the names themselves.
    fn of(window: Window) -> Colours
        ensures { result ≡ coloured (take window.len window.names) }
    {
        let len = window.len;
        let mut places = [0; 96];
        colour_names(&window.names[..len], &mut places[..len]);
        Colours { places, len }
    }

    /// All places take together the colour that `rule` gives them.
    fn pass<F: Fn(Place) -> u8>(self, rule: F) -> Colours
        requires { F.IsAlwaysCallable rule }
        ensures { Made (F.post rule) self result }
    {
        let old = &self.places[..self.len];
        let mut places = [0; 96];
        for (i, colour) in places[..old.len()].iter_mut().enumerate() {
            *colour = rule(Place::of(old, i));
        }
        Colours {
            places,
            len: self.len,
        }
    }

    /// A later recolouring.
    fn recoloured(self) -> Colours
        ensures { result ≡ coloured self }
    {
        self.pass(|place| place.recoloured())
    }

    /// All places of colour `k` have taken a colour that no neighbour has.
    fn reduced(self, k: u8) -> Colours
        ensures { result ≡ without k self }
    {
        self.pass(|place| place.reduced(k))
    }

    /// The marks of the places at which blocks begin.
    fn marked(self) -> Colours
        ensures { result ≡ starts self }
    {
        self.pass(|place| place.mark())
    }
}

/// The marks of a window's names as a row.
pub(crate) fn marks(window: Window) -> [u8; 96]
    ensures row { take window.len result ≡ marks_of (take window.len window.names) }
    ensures past { (k : ℕ) → window.len ≤ k → at result k ≡ 0 }
{
    let six = Colours::of(window).recoloured().recoloured().recoloured();
    six.reduced(5).reduced(4).reduced(3).marked().places
}
