//! The report of the matching program: one line, its fields parted by tabs.
ghost use Rattle.std.specs.Prelude.{◌≡◌, ◌+◌, ◌≤◌, [], ◌∷◌, ◌++◌, length, codes};
ghost use Rattle.texts.specs.Numbers.{digits};
ghost use Rattle.texts.specs.Reports.{text_of, file_letter, line_told, report_of};

use arrayvec::ArrayString;
use fault::Fault;
use itoa::Buffer;

/// A line of the report, which fits in 64 bytes: its longest form has two numbers of twenty digits and twelve bytes more.
pub type ReportLine = ArrayString<64>;

/// Which of the two files of a sector.
#[derive(Clone, Copy, Debug, PartialEq, Eq)]
pub enum DeliveredFile {
    Magnets,
    Interlock,
}

/// What came of matching two files.
#[derive(Clone, Copy, Debug, PartialEq, Eq)]
pub enum Outcome {
    /// The lists are the same, and have so many lines.
    Same { lines: usize },
    /// The first line in which they differ.
    Differ { line: usize },
    /// A file was refused.
    Refused { file: DeliveredFile, fault: Fault },
}

/// The letter by which a report names the file.
impl From<DeliveredFile> for char {
    ghost from_gives = { λ f c. c ≡ file_letter f };

    fn from(file: DeliveredFile) -> char {
        match file {
            DeliveredFile::Magnets => 'M',
            DeliveredFile::Interlock => 'I',
        }
    }
}

// Not printed by `Display`: that may fail, and its contract tells only what an `Ok` has written; a report never fails.
/// Puts the number behind the line.
fn push_number(line: &mut ReportLine, n: u64)
    requires { length (text_of line.old) + 20 ≤ 64 }
    ensures text { text_of line.new ≡ text_of line.old ++ digits n }
    ensures len { length (text_of line.new) ≤ length (text_of line.old) + 20 }
{
    let mut buffer = Buffer::new();
    line.push_str(buffer.format(n));
}

/// A line that begins with the word and a tab.
fn begun(word: &str) -> ReportLine
    requires { length word.now ≤ 8 }
    ensures { text_of result ≡ word.now ++ (9 ∷ []) }
{
    let mut line = ReportLine::new();
    line.push_str(word);
    line.push('\t');
    line
}

/// A word, a tab and a number.
fn counted(word: &str, n: usize) -> ReportLine
    requires { length word.now ≤ 8 }
    ensures { text_of result ≡ word.now ++ (9 ∷ (digits n ++ (10 ∷ []))) }
{
    let mut line = begun(word);
    push_number(&mut line, n as u64);
    line.push('\n');
    line
}

// By the number and not by the layer: the report's form names the refusals 1 and 2.
/// The line that a refusal tells.
fn line_told(fault: Fault) -> usize
    ensures { result ≡ line_told fault.number fault.place }
{
    if matches!(fault.number, 1 | 2) {
        fault.place
    } else {
        0
    }
}

fn refused(file: DeliveredFile, fault: Fault) -> ReportLine
    ensures { text_of result ≡ codes "refused" ++ (9 ∷ (file_letter file ∷ (9 ∷ (digits fault.number ++ (9 ∷ (digits (line_told fault.number fault.place) ++ (10 ∷ []))))))) }
{
    let mut line = begun("refused");
    line.push(char::from(file));
    line.push('\t');
    push_number(&mut line, u64::from(fault.number));
    line.push('\t');
    push_number(&mut line, line_told(fault) as u64);
    line.push('\n');
    line
}

/// The line that reports the outcome.
pub fn report(outcome: Outcome) -> ReportLine
    ensures { text_of result ≡ report_of outcome }
{
    match outcome {
        Outcome::Same { lines } => counted("same", lines),
        Outcome::Differ { line } => counted("differ", line),
        Outcome::Refused { file, fault } => refused(file, fault),
    }
}
