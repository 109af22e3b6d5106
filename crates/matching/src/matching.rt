//! Matching the two files of a sector.
ghost use Rattle.std.specs.Prelude.{◌≡◌, ◌≤◌, length, IfOk};
ghost use Rattle.std.specs.Option.{option_map};
ghost use Rattle.matching.specs.Matching.{Compared, Delivered, Matched, refused_with};

use crate::comparing::common_prefix;
use crate::faults::FileFault;
use fault::Fault;
use lines::reader::LineReader;
use lines::record::Record;
use texts::report::{DeliveredFile, Outcome};

/// The most bytes that a delivered file may have.
const MOST_BYTES: usize = 4096;

// A file and its rows are no struct: a method that reads the one into the other is not covered (an intersection of lifetimes, one of which is lent again).
/// Reads a delivered file into the rows from the first on, and answers how many. No bytes are a file that cannot be read.
pub fn read_delivery(file: Option<&[u8]>, rows: &mut [Record]) -> Result<usize, FileFault>
    ensures delivered { Delivered (option_map (λ x. x.now) file.entry) rows.old rows.new result }
    ensures within { IfOk result (λ n. n ≤ length rows.old) }
{
    let bytes = file.ok_or(FileFault::Unreadable)?;
    if bytes.len() > MOST_BYTES {
        return Err(FileFault::TooLong);
    }
    let mut reader = LineReader::new(bytes);
    match reader.read_rows(rows)? {
        0 => Err(FileFault::Empty),
        count => Ok(count),
    }
}

/// What comparing two lists gives.
fn compare(xs: &[Record], ys: &[Record]) -> Outcome
    ensures { Compared xs.now ys.now result }
{
    let n = common_prefix(xs, ys);
    if n < xs.len() || n < ys.len() {
        Outcome::Differ { line: n + 1 }
    } else {
        Outcome::Same { lines: n }
    }
}

fn refused(file: DeliveredFile, fault: FileFault) -> Outcome
    ensures { result ≡ refused_with file fault }
{
    Outcome::Refused {
        file,
        fault: Fault::from(fault),
    }
}

// The rows are the caller's memory, and a list is the front of them: a count says how far.
// Two matches and no `?`: what is wrong with a file is an outcome, and no error of this function.
/// Reads both files into their rows, the magnet list first, and compares their lists.
pub fn match_files(
    magnets: Option<&[u8]>,
    interlock: Option<&[u8]>,
    magnet_rows: &mut [Record],
    interlock_rows: &mut [Record],
) -> Outcome
    ensures { Matched (option_map (λ x. x.now) magnets.entry) (option_map (λ x. x.now) interlock.entry) magnet_rows.old magnet_rows.new interlock_rows.old interlock_rows.new result }
{
    let first = match read_delivery(magnets, magnet_rows) {
        Ok(count) => count,
        Err(fault) => return refused(DeliveredFile::Magnets, fault),
    };
    let second = match read_delivery(interlock, interlock_rows) {
        Ok(count) => count,
        Err(fault) => return refused(DeliveredFile::Interlock, fault),
    };
    compare(&magnet_rows[0..first], &interlock_rows[0..second])
}
