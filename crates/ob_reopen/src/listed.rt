//! A table as a closing lists it.
use ob_base::Table;

/// A table as a closing lists it: the first block of its region was last written under this number, and the
/// others after it in order, by a run that had this salt, or none.
#[derive(Drop)]
pub struct Listed {
    pub table: Table,
    pub number: u64,
    pub salt: Option<[u8; 16]>,
}
