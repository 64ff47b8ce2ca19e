//! Printed answers, pieces and lines.
use ob_base::{Access, Emit, Failed, Label, Refusal, Shown, Stop, Text};
use ob_io::MemSink;
use ob_print::{Pieces, Printer, RecordLine, access_line, refusal_line, stop_line};
use std::test::Fail;

#[test]
fn prints_an_answer(rt: HostRuntime) -> Result<(), Fail> {
    let a = rt.alloc();
    let mut out = MemSink::new(a, 64, vec![in a; 2]?)?;
    let mut line = RecordLine::new(a);
    let mut printer = Printer {
        out: Pieces::new(&mut out),
        line: &mut line,
    };
    printer.head(&[Label::from_bytes(b"id"), Label::from_bytes(b"SUM(v)")])?;
    let cells = [Shown::Text(Text::from_bytes(b"a\"b,")), Shown::Int(-7)];
    printer.row(&cells)?;
    printer.row(&[Shown::Null])?;
    printer.close(12)?;
    let printed = b"\"id\",\"SUM(v)\"\n\"a\"\"b,\",\"-7\"\n\"NULL\"\n= 12 rows\n";
    printer.out.flush()?;
    assert_eq!(rt; out.bytes(), printed.as_slice());
    Ok(())
}

#[test]
fn bytes_go_out_in_pieces(rt: HostRuntime) -> Result<(), Fail> {
    let a = rt.alloc();
    let mut out = MemSink::new(a, 20_000, vec![in a; 3]?)?;
    let mut pieces = Pieces::new(&mut out);
    for _ in 0..819 {
        pieces.write_all(b"123456789\n")?;
    }
    assert_eq!(rt; pieces.out.bytes().len(), 0);
    pieces.write_all(b"123456789\n")?;
    assert_eq!(rt; pieces.out.bytes().len(), 8192);
    pieces.flush()?;
    assert_eq!(rt; pieces.out.bytes().len(), 8200);
    pieces.flush()?;
    // a piece that is longer than one goes out in several, of which the sink fails the first
    assert_eq!(rt; pieces.write_all(&[b'x'; 9000]), Err(Failed));
    assert_eq!(rt; pieces.out.bytes().len(), 8200);
    pieces.write_all(&[b'y'; 9000])?;
    assert_eq!(rt; pieces.out.bytes().len(), 16392);
    assert_eq!(rt; out.bytes().get(8191), Some(&b'2'));
    assert_eq!(rt; out.bytes().get(8200), Some(&b'y'));
    Ok(())
}

#[test]
fn prints_lines(rt: HostRuntime) {
    let make = Access::Make {
        region: 18446744073709551615,
        blocks: 4,
        len: 49,
    };
    assert_eq!(rt;
        access_line(make).as_bytes(),
        b"M 18446744073709551615 4 49\n".as_slice()
    );
    assert_eq!(rt;
        refusal_line(Refusal::Overflow(2)).as_bytes(),
        b"E14 overflow 2\n".as_slice()
    );
    let stop = Stop::Tampered {
        region: 2,
        place: 0,
    };
    assert_eq!(rt; stop_line(stop).as_bytes(), b"! tampered 2 0\n".as_slice());
}
