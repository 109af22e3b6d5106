//! The runs of equal names in a row, one after the other.
ghost use Rattle.std.specs.Prelude.{◌≤◌, length, MatchOption};
ghost use Rattle.cutting.specs.Runs.{Leading, RunHanded};

/// A longest run of equal names: the name, and how many times it stands there.
#[derive(Drop, Clone, Copy)]
pub struct Run {
    pub name: u32,
    pub times: usize,
}

/// How many names equal `name` before the first that does not.
fn leading(row: &[u32], name: u32) -> usize
    ensures { Leading row.now name result }
{
    row.iter()
        .position(|other| *other != name)
        .unwrap_or(row.len())
}

/// The run of `row` that begins at `start`; nothing if `start` is past the row. A row is walked from place 0 on, each run from the end of the one before.
pub fn next_run(row: &[u32], start: usize) -> Option<Run>
    ensures { MatchOption result (length row.now ≤ start) (λ run. RunHanded row.now start run) }
{
    let name = *row.get(start)?;
    let times = leading(&row[start..], name);
    Some(Run { name, times })
}
