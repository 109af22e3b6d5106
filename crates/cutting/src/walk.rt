//! A walk along a row and its marks, block by block.
ghost use Rattle.std.specs.Prelude.{◌≡◌, ◌<◌, ◌≤◌, length, MatchOption, ◌≢◌};
ghost use Rattle.cutting.specs.Walk.{Handed, Stop, Zeros};
ghost use Rattle.cutting.specs.Rows.{at};

/// A block of a row: its names, a part of the row, and the place after them.
#[derive(Drop, Clone, Copy)]
pub struct Block<'a> {
    pub names: &'a [u32],
    pub end: usize,
}

/// The place of the first mark.
// A `for` with the index, and no `position`: it is a rule of this project that a row and its block starts are walked so.
fn first_mark(marks: &[u8]) -> Option<usize>
    ensures { MatchOption result (Zeros marks.now (length marks.now)) (λ i. (i < length marks.now) × Zeros marks.now i × (at marks.now i ≢ 0)) }
{
    for (i, mark) in marks.iter().enumerate() {
        if *mark != 0 {
            return Some(i);
        }
    }
    None
}

/// Where the block that begins at `start` ends, in a row of `n` names: at the next mark, or at the end of the row.
fn block_end(marks: &[u8], start: usize, n: usize) -> usize
    requires { start < n }
    ensures { Stop marks.now start n result }
{
    let last = n.min(marks.len());
    if start + 1 >= last {
        return n;
    }
    match first_mark(&marks[start + 1..last]) {
        Some(i) => start + 1 + i,
        None => n,
    }
}

// The row and its marks are the caller's memory: two slices.
/// The block of `row` that begins at `start`, where `marks` say that the blocks begin; nothing if `start` is past the row. A row is walked from place 0 on,
/// each block from the end of the one before.
pub fn next_block<'a>(row: &'a [u32], marks: &[u8], start: usize) -> Option<Block<'a>>
    ensures { MatchOption result (length row.now ≤ start) (λ b. Handed row.now marks.now start b.end b.names.now) }
{
    if start >= row.len() {
        return None;
    }
    let end = block_end(marks, start, row.len());
    Some(Block {
        names: &row[start..end],
        end,
    })
}
