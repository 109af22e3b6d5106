//! Matches the two files of a sector, `magnets.txt` and `interlock.txt`, and prints one line.
#![tactic(auto)]

ghost use Rattle.std.specs.Prelude.{◌≡◌, ◌≤◌, take, IfSome};
ghost use Rattle.std.specs.Option.{option_map};

use lines::record::Record;
use matching::matching::match_files;
use std::fs::File;
use std::io;
use std::io::{Read, Write};
use texts::report::report;

/// One byte more than a delivered file may have, so that a longer one is seen to be longer.
const SPACE: usize = 4097;

/// How many rows there are for each file.
const ROWS: usize = 128;

/// Reads a file from its start, as far as there is space, and answers how many bytes; none where it cannot be opened or read.
fn load(rt: &HostRuntime, path: &str, space: &mut [u8; SPACE]) -> Option<usize>
    ensures { IfSome result (λ n. n ≤ 4097) }
{
    let mut file = File::open(rt, path).ok()?;
    // No heap, so the bytes go into fixed space and are counted.
    let mut used = 0;
    while used < SPACE {
        let n = file.read(&mut space[used..]).ok()?;
        if n == 0 {
            break;
        }
        used += n;
    }
    Some(used)
}

/// The bytes that were read: the front of the space.
fn front(space: &[u8; SPACE], read: Option<usize>) -> Option<&[u8]>
    requires { IfSome read (λ n. n ≤ 4097) }
    ensures { option_map (λ x. x.now) result ≡ option_map (λ n. take n space.now) read }
{
    read.map(|used| &space[..used])
}

fn main(rt: HostRuntime) -> io::Result<()> {
    let mut magnets = [0u8; SPACE];
    let mut interlock = [0u8; SPACE];
    let magnets_read = load(&rt, "magnets.txt", &mut magnets);
    let interlock_read = load(&rt, "interlock.txt", &mut interlock);
    let mut magnet_rows = [Record::blank(); ROWS];
    let mut interlock_rows = [Record::blank(); ROWS];
    let outcome = match_files(
        front(&magnets, magnets_read),
        front(&interlock, interlock_read),
        &mut magnet_rows,
        &mut interlock_rows,
    );
    rt.stdout().write_all(report(outcome).as_bytes())
}
