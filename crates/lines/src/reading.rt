//! Reading a file line by line.
ghost use Rattle.std.specs.Prelude.{◌≡◌, ◌+◌, ◌≤◌, [], ◌∷◌, length, IfSome, IfOk, MatchOption};
ghost use Rattle.std.specs.List.{AllByRecursion};
ghost use Rattle.lines.specs.Layout.{Lawful};
ghost use Rattle.lines.specs.Readers.{left, rest, Leads, FieldsOf, Stepped, ReadAll, reading_of};
ghost use Rattle.lines.specs.Peeks.{Peeked};

use crate::cut::cut_at;
use crate::faults::LineFault;
use crate::fields::Fields;
use crate::line::Line;
use crate::reader::LineReader;
use crate::record::Record;

const LINE_END: u8 = 10;

/// A record, and how many bytes its line has with its end.
#[derive(Clone, Copy)]
struct ReadLine {
    record: Record,
    size: usize,
}

impl<'a> LineReader<'a> {
    /// The line at which the reader stands, without its end.
    fn line(&self) -> Option<Line<'a>>
        ensures { MatchOption result (left self.now ≡ rest self.now ∷ []) (Leads self.now) }
    {
        let file = self.file;
        let (bytes, _) = cut_at(&file[self.place..], LINE_END)?;
        Some(Line {
            bytes,
            place: self.place,
        })
    }

    /// The fields of the line at which the reader stands; none where there is no line, or not four fields.
    pub fn fields(&self) -> Option<Fields<'a>>
        ensures { FieldsOf (left self.now) self.now.place result }
    {
        self.line()?.fields()
    }

    /// What the next line says; nothing moves.
    fn peek(&self) -> Result<Option<ReadLine>, LineFault>
        ensures { Peeked self.now result }
    {
        if self.place >= self.file.len() {
            return Ok(None);
        }
        let refusal = LineFault::NotARecord {
            line: self.lines + 1,
        };
        let line = self.line().ok_or(refusal)?;
        let record = line.to_record().ok_or(refusal)?;
        Ok(Some(ReadLine {
            record,
            size: line.bytes.len() + 1,
        }))
    }

    /// Past a line of `size` bytes.
    fn pass(&mut self, size: usize)
        requires { (1 ≤ size) × (self.old.place + size ≤ length self.old.file.now) }
        ensures file { self.new.file.now ≡ self.old.file.now }
        ensures place { self.new.place ≡ self.old.place + size }
        ensures lines { self.new.lines ≡ self.old.lines + 1 }
    {
        self.place += size;
        self.lines += 1;
    }

    /// The record of the next line, and none at the end of the file. At a refusal the reader stays at the line's start.
    pub fn next_line(&mut self) -> Result<Option<Record>, LineFault>
        ensures stepped { Stepped self.old self.new result }
        ensures lawful { IfOk result (λ o. IfSome o Lawful) }
    {
        match self.peek()? {
            None => Ok(None),
            Some(found) => {
                self.pass(found.size);
                Ok(Some(found.record))
            }
        }
    }

    /// Reads all lines that are left into the rows from the first on, and answers how many. At a refusal the earlier
    /// lines' rows are written and no others, and the reader stays at the refused line's start.
    pub fn read_rows(&mut self, rows: &mut [Record]) -> Result<usize, LineFault>
        ensures read { ReadAll self.old self.new rows.old rows.new result (reading_of self.old (length rows.old)) }
        ensures lawful { AllByRecursion Lawful (reading_of self.old (length rows.old)).records }
        ensures within { IfOk result (λ n. n ≤ length rows.old) }
    {
        // The count is the answer, and a `for` over the rows would have to look behind the last row once more.
        let mut used = 0;
        while let Some(line) = self.peek()? {
            if used >= rows.len() {
                return Err(LineFault::NoRow {
                    line: self.lines + 1,
                });
            }
            rows[used] = line.record;
            self.pass(line.size);
            used += 1;
        }
        Ok(used)
    }
}
