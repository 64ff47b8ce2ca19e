//! The generated text, its summary and digests.
use ob_base::{Failed, Plan};
use ob_gen::{Digester, Discard, Generated, Summary, Tally, TraceDigest};
use ob_io::{MemSink, Sink, Source};
use ob_store::{BlockStore, MemStore};
use sha2::{Digest, Sha256};
use std::test::Fail;

const ONE_ROW: &[u8] = b"0000000000000000000000000000000000000000000000000000000000000000
CREATE TABLE g (id INT PRIMARY KEY, v INT) CAPACITY 1;
INSERT INTO g VALUES (1, 7);
SELECT * FROM g WHERE v = 3;
SELECT id FROM g WHERE id > 0;
SELECT v FROM g WHERE v <> 9;
SELECT v, COUNT(*) FROM g GROUP BY v;
UPDATE g SET v = 10 WHERE v = 1;
DELETE FROM g WHERE v = 2;
CREATE TABLE h (k INT) CAPACITY 4;
INSERT INTO h VALUES (1);
SELECT * FROM g JOIN h ON g.id = h.k;
SELECT COUNT(*), SUM(v) FROM g;
DROP TABLE g;
DROP TABLE h;
";

const SUMMARY: &[u8] = b"statements 3
refused 1
rows 18446744073709551615
accesses 74
small 1
large 0
continuous 0
hash 1
trace 00ff00ff00ff00ff00ff00ff00ff00ff00ff00ff00ff00ff00ff00ff00ff00ff
";

// How many bytes a source gives, in reads of seven bytes at most, and their SHA-256.
fn read_all(source: &mut Generated) -> (u64, [u8; 32]) {
    let mut hasher = Sha256::new();
    let mut count = 0u64;
    let mut buf = [0; 7];
    for _ in 0..1_000_000 {
        match source.read(&mut buf) {
            Ok(n) if n > 0 => {
                hasher.update(&buf[..n]);
                count = count.saturating_add(n as u64);
            }
            _ => break,
        }
    }
    (count, hasher.finalize())
}

// The digests were computed by another program.
#[test]
fn gives_its_text(rt: HostRuntime) -> Result<(), Fail> {
    assert_eq!(rt;
        read_all(&mut Generated::new(0, 1)),
        (496, Sha256::digest(ONE_ROW))
    );
    let cases = [
        (
            0,
            1,
            496,
            "6633a10f4a9eb84c26f97a9b32459fbdee1af3b1b6533109b57c4f29b7ee7c0f",
        ),
        (
            u64::MAX,
            10,
            759,
            "36e7d858386d9d9bd9dfbc37d3894e2a2187144fe02a76d3528edb2b094d9b4a",
        ),
        (
            12_345_678_901_234_567_890,
            4096,
            130_438,
            "5c3ac45b1abc11400eff7059bf21632fa0386d1cd44a779bff4e0b6995c64940",
        ),
    ];
    for (x, n, bytes, digest) in cases {
        let mut source = Generated::new(x, n);
        let mut expected = [0; 32];
        assert_eq!(rt; hex::decode_to_slice(digest, &mut expected), Ok(()));
        assert_eq!(rt; read_all(&mut source), (bytes, expected));
        let mut buf = [1; 7];
        assert_eq!(rt; source.read(&mut buf), Ok(0));
        assert_eq!(rt; buf, [1; 7]);
    }
    Ok(())
}

#[test]
fn writes_its_summary(rt: HostRuntime) -> Result<(), Fail> {
    let alloc = rt.alloc();
    let mut tally = Tally::default();
    tally.add(false, 5, Some(Plan::Hash));
    tally.add(true, 0, None);
    tally.add(false, u64::MAX, Some(Plan::Small));
    let mut trace = [0; 32];
    for i in 0..16 {
        trace[2 * i + 1] = 255;
    }
    let summary = Summary {
        tally,
        accesses: 74,
        trace,
    };
    let mut out = MemSink::new(alloc, 1024, Vec::new(alloc))?;
    assert_eq!(rt; summary.write(&mut out), Ok(()));
    assert_eq!(rt; out.bytes(), SUMMARY);
    let mut full = MemSink::new(alloc, 20, Vec::new(alloc))?;
    assert_eq!(rt; summary.write(&mut full), Err(Failed));
    assert_eq!(rt; full.bytes(), &SUMMARY[..20]);
    let mut third = MemSink::new(alloc, 1024, vec![in alloc; 3]?)?;
    assert_eq!(rt; summary.write(&mut third), Err(Failed));
    assert_eq!(rt; third.bytes(), b"statements 3\nrefused 1\n".as_slice());
    Ok(())
}

#[test]
fn discards_all(rt: HostRuntime) -> Result<(), Fail> {
    let mut sink = Discard;
    assert_eq!(rt; sink.write(b"abc"), Ok(3));
    assert_eq!(rt; sink.write(b""), Ok(0));
    Ok(())
}

// The digests are those of no bytes, and of `M 1 4 49`, `W 1 0`, `W 1 1` and `D 1`, each with its end of line, of which the
// first two are taken before the others are asked, and the list lets go of all after that.
#[test]
fn digests_the_trace(rt: HostRuntime) -> Result<(), Fail> {
    let mut store = MemStore::new(rt.alloc());
    let mut expected = [0; 32];
    let none = "e3b0c44298fc1c149afbf4c8996fb92427ae41e4649b934ca495991b7852b855";
    assert_eq!(rt; hex::decode_to_slice(none, &mut expected), Ok(()));
    assert_eq!(rt; TraceDigest::new().finish(), expected);
    let mut digest = TraceDigest::new();
    store.reserve(4)?;
    store.make(1, 4, 49)?;
    store.write(1, 0, &[7; 49])?;
    assert_eq!(rt; store.gone(), 0);
    digest.take_from(&store, 0);
    store.write(1, 1, &[7; 49])?;
    store.discard(1)?;
    assert!(rt; store.gone() == 0 && store.count() == 4);
    digest.take_from(&store, 2);
    store.let_go();
    assert_eq!(rt; store.gone(), 4);
    let four = "addcfe484bc8bf37f82bb995002436d37c66996caf05eb2d2b3550292f232f7c";
    assert_eq!(rt; hex::decode_to_slice(four, &mut expected), Ok(()));
    assert_eq!(rt; digest.finish(), expected);
    Ok(())
}
