//! Versions of buckets.

/// Which block of a bucket is meant: that at one of its two places which was sealed in this run under this number.
#[derive(Clone, Copy)]
pub struct Version {
    pub side: bool,
    pub run: u64,
    pub number: u64,
}
