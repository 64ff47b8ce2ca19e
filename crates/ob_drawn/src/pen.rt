//! Bytes that are written one after the other.
use itoa::{Buffer, Integer};
use std::alloc::Global;

/// What was written. Where memory is short a piece is left out, and what was written isn't whole from then on.
#[derive(Drop)]
pub struct Pen {
    bytes: Vec<u8>,
    is_whole: bool,
}

impl Pen {
    /// Nothing is written yet.
    pub fn new(alloc: Global) -> Pen {
        Pen {
            bytes: Vec::new(alloc),
            is_whole: true,
        }
    }

    /// What was written.
    pub fn bytes(&self) -> &[u8] {
        self.bytes.as_slice()
    }

    /// Whether no piece was left out.
    pub fn is_whole(&self) -> bool {
        self.is_whole
    }

    /// Writes bytes.
    pub fn write(&mut self, piece: &[u8]) {
        if self.bytes.extend_from_slice(piece).is_err() {
            self.is_whole = false;
        }
    }

    /// Writes text.
    pub fn put(&mut self, piece: &str) {
        self.write(piece.as_bytes());
    }

    /// Writes a number in decimal.
    pub fn put_number<I: Integer>(&mut self, n: I) {
        let mut buffer = Buffer::new();
        self.put(buffer.format(n));
    }
}
