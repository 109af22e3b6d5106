// The links of a row, as it stores them.
ghost use Rattle.std.specs.Prelude.{◌≡◌, ◌^◌, ◌<◌};
ghost use Rattle.search_tree.specs.Tree.{link};

// A number and no `Option<u32>`: there a tag takes four bytes more, and a caller hands in millions of rows.
/// The link to a row, in four bytes: 0 for none, else one more than the row, which counts from 0.
#[derive(Clone, Copy)]
pub(crate) struct Link(u32);

impl Link {
    pub(crate) fn of(row: Option<u32>) -> Link
        requires { link row < 2 ^ 32 }
        ensures { result.0 ≡ link row }
    {
        match row {
            None => Link(0),
            Some(i) => Link(i + 1),
        }
    }

    pub(crate) fn row(self) -> Option<u32>
        ensures { link result ≡ self.0 }
    {
        self.0.checked_sub(1)
    }
}
