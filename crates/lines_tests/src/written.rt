//! Numbers and reports.
use fault::{Fault, Layer};
use std::process::Abort;
use std::test::Fail;
use texts::numbers::write_number;
use texts::report::{DeliveredFile, Outcome, report};

/// The number's digits stand at the second place, and all else is as it was.
fn is_written(rt: &impl Abort, n: u64, text: &[u8]) -> Result<(), Fail> {
    let mut out = [b'.'; 24];
    let Some(end) = write_number(&mut out, 1, n) else {
        return Err(Fail::new("no room for a number"));
    };
    assert!(rt; end <= 24);
    assert!(rt; end >= 1);
    assert_eq!(rt; &out[1..end], text);
    assert_eq!(rt; out[0], b'.');
    for b in &out[end..] {
        assert_eq!(rt; *b, b'.');
    }
    Ok(())
}

#[test]
fn numbers(rt: HostRuntime) -> Result<(), Fail> {
    is_written(&rt, 0, b"0")?;
    is_written(&rt, 9, b"9")?;
    is_written(&rt, 10, b"10")?;
    is_written(&rt, 2_000_000, b"2000000")?;
    is_written(&rt, 18_446_744_073_709_551_615, b"18446744073709551615")
}

#[test]
fn no_room(rt: HostRuntime) {
    let mut out = [b'.'; 3];
    assert_eq!(rt; write_number(&mut out, 0, 1000), None);
    assert_eq!(rt; write_number(&mut out, 3, 0), None);
    assert_eq!(rt; write_number(&mut out, usize::MAX, 0), None);
    assert_eq!(rt; out, [b'.'; 3]);
}

fn refused(file: DeliveredFile, number: u8, layer: Layer, place: usize) -> Outcome {
    Outcome::Refused {
        file,
        fault: Fault {
            number,
            layer,
            place,
        },
    }
}

#[test]
fn reports(rt: HostRuntime) {
    let magnets = DeliveredFile::Magnets;
    let interlock = DeliveredFile::Interlock;
    assert_eq!(rt;
        report(Outcome::Same { lines: 102 }).as_bytes(),
        b"same\t102\n".as_slice()
    );
    assert_eq!(rt;
        report(Outcome::Differ { line: 51 }).as_bytes(),
        b"differ\t51\n".as_slice()
    );
    assert_eq!(rt;
        report(refused(magnets, 1, Layer::LineReader, 7)).as_bytes(),
        b"refused\tM\t1\t7\n".as_slice()
    );
    assert_eq!(rt;
        report(refused(interlock, 2, Layer::LineReader, 129)).as_bytes(),
        b"refused\tI\t2\t129\n".as_slice()
    );
    assert_eq!(rt;
        report(refused(interlock, 9, Layer::ElementDictionary, 4)).as_bytes(),
        b"refused\tI\t9\t0\n".as_slice()
    );
}
