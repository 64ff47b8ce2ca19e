//! Keys of regions, and of spans of write numbers.
use ob_hmac::MacKey;

/// The cipher key and the tag key of a region, and the salt of its run, if that had one, with its check value.
#[derive(Drop)]
pub struct Pair {
    pub salt: Option<[u8; 16]>,
    pub check: [u8; 16],
    pub cipher: [u8; 32],
    pub mac: MacKey,
}

/// Those of a region of an earlier run.
#[derive(Drop)]
pub struct Held {
    pub region: u64,
    pub pair: Pair,
}

/// Those of the blocks of a region up to a number: of the run that wrote them, where several runs write to it.
#[derive(Drop)]
pub struct Span {
    pub region: u64,
    pub upto: u64,
    pub pair: Pair,
}
