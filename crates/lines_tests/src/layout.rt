//! Single lines, good and bad.
use lines::faults::LineFault;
use lines::kind::Kind;
use lines::reader::LineReader;
use std::process::Abort;
use std::test::Fail;

/// The line is refused, and the reader stays at its start.
fn is_refused(rt: &impl Abort, file: &[u8]) -> Result<(), Fail> {
    let mut reader = LineReader::new(file);
    let Err(fault) = reader.next_line() else {
        return Err(Fail::new("a bad line was read"));
    };
    assert_eq!(rt; fault, LineFault::NotARecord { line: 1 });
    assert_eq!(rt; reader.place(), 0);
    assert_eq!(rt; reader.lines(), 0);
    Ok(())
}

/// The line is read, with this kind, limit and chain, and the reader stands at its end.
fn is_read(rt: &impl Abort, file: &[u8], kind: Kind, limit: u32, chain: u8) -> Result<(), Fail> {
    let mut reader = LineReader::new(file);
    let Ok(found) = reader.next_line() else {
        return Err(Fail::new("a good line was refused"));
    };
    let Some(record) = found else {
        return Err(Fail::new("a good line was not seen"));
    };
    assert_eq!(rt; record.kind, kind);
    assert_eq!(rt; record.limit, limit);
    assert_eq!(rt; record.chain, chain);
    assert_eq!(rt; reader.place(), file.len());
    assert_eq!(rt; reader.lines(), 1);
    Ok(())
}

#[test]
fn good_lines(rt: HostRuntime) -> Result<(), Fail> {
    is_read(&rt, b"A\tD\t0\t1\n", Kind::Dipole, 0, 1)?;
    is_read(
        &rt,
        b"S03-QF-1\tQ\t0412500\t02\n",
        Kind::Quadrupole,
        412_500,
        2,
    )?;
    is_read(
        &rt,
        b"ABCDEFGHIJKL\tS\t2000000\t64\n",
        Kind::Sextupole,
        2_000_000,
        64,
    )?;
    is_read(&rt, b"-\tT\t0000000\t09\n", Kind::Steerer, 0, 9)
}

#[test]
fn bad_lines(rt: HostRuntime) -> Result<(), Fail> {
    let bad: [&[u8]; 30] = [
        b"\n",
        b"A\n",
        b"A\tD\t1\n",
        b"A\tD\t1\t1\t\n",
        b"A\tD\t1\t1\t1\n",
        b"A\t\tD\t1\t1\n",
        b"\tA\tD\t1\t1\n",
        b"A D 1 1\n",
        b"\tD\t1\t1\n",
        b"A\t\t1\t1\n",
        b"A\tD\t\t1\n",
        b"A\tD\t1\t\n",
        b"A\tD\t1\t1\r\n",
        b"A\tD\t1\t1",
        b"ABCDEFGHIJKLM\tD\t1\t1\n",
        b"a\tD\t1\t1\n",
        b"A_B\tD\t1\t1\n",
        b"A\tX\t1\t1\n",
        b"A\td\t1\t1\n",
        b"A\tDQ\t1\t1\n",
        b"A\tD\t2000001\t1\n",
        b"A\tD\t00000001\t1\n",
        b"A\tD\t-1\t1\n",
        b"A\tD\t1.5\t1\n",
        b"A\tD\t1\t0\n",
        b"A\tD\t1\t65\n",
        b"A\tD\t1\t064\n",
        b"A\tD\t1\t+1\n",
        b"A\0\tD\t1\t1\n",
        b"\xc3\x84\tD\t1\t1\n",
    ];
    for line in bad {
        is_refused(&rt, line)?;
    }
    Ok(())
}

// By the place: it is what is damaged.
/// Each byte of a lawful line, damaged in turn.
#[test]
fn damaged_lines(rt: HostRuntime) -> Result<(), Fail> {
    let line = *b"S03-QF\tQ\t412500\t12\n";
    let damage = [0u8, 11, 13, 32, 47, 58, 64, 91, 127, 128, 255];
    is_read(&rt, &line, Kind::Quadrupole, 412_500, 12)?;
    for i in 0..line.len() {
        for b in damage {
            let mut bad = line;
            bad[i] = b;
            is_refused(&rt, &bad)?;
        }
    }
    Ok(())
}
