//! What comes of a statement on an index.
use ob_oram::{Got, OramErr};

/// What came of a statement's access: the leaf of its key, which a watcher sees, and its answer.
#[derive(Drop)]
pub struct Keyed {
    pub leaf: u32,
    pub result: Result<Got, OramErr>,
}
