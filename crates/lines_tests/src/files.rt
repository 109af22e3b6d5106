//! Whole files: rows, refusals and where the reader stands.
use fault::{Fault, Layer};
use lines::faults::LineFault;
use lines::reader::LineReader;
use lines::record::Record;
use matching::faults::FileFault;
use matching::matching::{match_files, read_delivery};
use std::array;
use std::test::Fail;
use texts::report::{DeliveredFile, Outcome};

/// 129 lines of eight bytes each.
fn many_lines() -> [u8; 1032] {
    let line = *b"A\tD\t0\t1\n";
    array::from_fn(|i| line[i % 8])
}

#[test]
fn rows_run_out(rt: HostRuntime) {
    let file = many_lines();
    let mut rows = [Record::blank(); 128];
    let mut whole = LineReader::new(&file[0..1024]);
    assert_eq!(rt; whole.read_rows(&mut rows), Ok(128));
    assert_eq!(rt; whole.place(), 1024);
    let mut longer = LineReader::new(&file);
    assert_eq!(rt;
        longer.read_rows(&mut rows),
        Err(LineFault::NoRow { line: 129 })
    );
    assert_eq!(rt; longer.place(), 1024);
    assert_eq!(rt; longer.lines(), 128);
}

#[test]
fn stops_at_the_first_refusal(rt: HostRuntime) {
    let file = *b"A\tD\t0\t1\nB\tD\t0\t1\nbad\nC\tD\t0\t1\n";
    let mut rows = [Record::blank(); 4];
    let mut reader = LineReader::new(&file);
    assert_eq!(rt;
        reader.read_rows(&mut rows),
        Err(LineFault::NotARecord { line: 3 })
    );
    assert_eq!(rt; reader.place(), 16);
    assert_eq!(rt; rows[1].circuit[0], b'B');
    assert_eq!(rt; rows[2].circuit[0], 0);
    assert_eq!(rt; reader.next_line().is_err(), true);
}

#[test]
fn hands_out_fields(rt: HostRuntime) -> Result<(), Fail> {
    let mut reader = LineReader::new(b"A\tD\t0\t1\nQ17\tQ\t350\t12\n");
    assert!(rt; reader.next_line().is_ok());
    let Some(fields) = reader.fields() else {
        return Err(Fail::new("no fields"));
    };
    let four = &fields;
    assert_eq!(rt; four.circuit.place, 8);
    assert_eq!(rt; four.kind.place, 12);
    assert_eq!(rt; four.limit.place, 14);
    assert_eq!(rt; four.chain.place, 18);
    Ok(())
}

/// Two rows for a file.
fn deliver(file: Option<&[u8]>) -> Result<usize, FileFault> {
    let mut rows = [Record::blank(); 2];
    read_delivery(file, &mut rows)
}

#[test]
fn long_files(rt: HostRuntime) {
    let file = [10u8; 4097];
    assert_eq!(rt;
        deliver(Some(&file[0..4096])),
        Err(FileFault::Line(LineFault::NotARecord { line: 1 }))
    );
    assert_eq!(rt; deliver(Some(&file)), Err(FileFault::TooLong));
    assert_eq!(rt; deliver(Some(&file[0..0])), Err(FileFault::Empty));
    assert_eq!(rt; deliver(None), Err(FileFault::Unreadable));
}

/// Two rows for each file.
fn matched(magnets: &[u8], interlock: &[u8]) -> Outcome {
    let mut first = [Record::blank(); 2];
    let mut second = [Record::blank(); 2];
    match_files(Some(magnets), Some(interlock), &mut first, &mut second)
}

#[test]
fn matches_files(rt: HostRuntime) {
    let a = *b"A\tD\t0\t1\nB\tD\t7\t1\n";
    let zeros = *b"A\tD\t00\t01\nB\tD\t7\t1\n";
    let chain = *b"A\tD\t0\t1\nB\tD\t7\t2\n";
    let refused = Outcome::Refused {
        file: DeliveredFile::Interlock,
        fault: Fault {
            number: 1,
            layer: Layer::LineReader,
            place: 2,
        },
    };
    assert_eq!(rt; matched(&a, &zeros), Outcome::Same { lines: 2 });
    assert_eq!(rt; matched(&a, &chain), Outcome::Differ { line: 2 });
    assert_eq!(rt; matched(&a, &a[0..8]), Outcome::Differ { line: 2 });
    assert_eq!(rt; matched(&a, &a[0..9]), refused);
}

#[test]
fn no_files(rt: HostRuntime) {
    let mut first = [Record::blank(); 2];
    let mut second = [Record::blank(); 2];
    let refused = Outcome::Refused {
        file: DeliveredFile::Magnets,
        fault: Fault {
            number: 13,
            layer: Layer::Programs,
            place: 0,
        },
    };
    let outcome = match_files(None, Some(b""), &mut first, &mut second);
    assert_eq!(rt; outcome, refused);
}
