//! How many accesses statements ask, counted from `docs/SPECIFICATION.md`, over flat tables by the plans Small and Large.
use crate::settings::Settings;
use ob_base::{Name, Refusal, Source};
use ob_mean::Answer;
use ob_sql::Stmt;
use std::alloc::{AllocError, Global};

// A table, and how many slots it has.
#[derive(Drop)]
struct Held {
    name: Name,
    slots: u64,
}

/// What a session asks in which so many INSERTs are served together.
#[derive(Drop)]
pub struct Accesses {
    pub count: u64,
    pack: u64,
    // As many rows are in the whole blocks that fit beside two that are open.
    kept: u64,
    is_large: bool,
    batch: u64,
    // Each table that was made, one that was dropped, too.
    held: Vec<Held>,
    // The table of the INSERTs that go into one batch, and how many there are.
    into: Option<Name>,
    texts: u64,
}

// How many groups of this size so many are, the last of which needs not be full.
fn parts(n: u64, size: u64) -> u64 {
    n.saturating_add(size.saturating_sub(1))
        .checked_div(size)
        .unwrap_or(0)
}

impl Accesses {
    /// Nothing was asked yet.
    pub fn new(alloc: Global, settings: Settings, batch: Option<u32>) -> Accesses {
        let buffer = u64::from(settings.buffer);
        let pack = u64::from(settings.pack);
        let blocks = buffer.checked_div(pack).unwrap_or(0).saturating_sub(2);
        Accesses {
            count: 0,
            pack,
            kept: blocks.saturating_mul(pack),
            is_large: settings.plan == "large",
            batch: u64::from(batch.unwrap_or(1)).min(buffer.saturating_sub(pack)),
            held: Vec::new(alloc),
            into: None,
            texts: 0,
        }
    }

    // So many blocks are asked for so many times, and so many accesses more.
    fn add(&mut self, times: u64, blocks: u64, more: u64) {
        let asked = times.saturating_mul(blocks).saturating_add(more);
        self.count = self.count.saturating_add(asked);
    }

    // The slots of a table, which is the last one that was made with its name.
    fn slots(&self, table: &Name) -> u64 {
        let mut slots = 0;
        for held in self.held.iter() {
            if held.name == *table {
                slots = held.slots;
            }
        }
        slots
    }

    // Of so many slots this many are selected.
    fn select(&mut self, slots: u64, selected: u64) {
        let blocks = parts(slots, self.pack);
        self.add(1, blocks, 0);
        if selected > 0 && self.is_large {
            self.add(5, blocks, 2);
        } else if selected > 0 {
            let result = parts(selected, self.pack);
            self.add(parts(selected, self.kept), blocks, 2);
            self.add(2, result, 0);
        }
    }

    // A SELECT of so many rows.
    fn select_from(&mut self, source: &Source, selected: u64) {
        match source {
            Source::Table(name) => self.select(self.slots(name), selected),
            Source::Join { left, right, .. } => {
                let slots = self.slots(left);
                let blocks = parts(self.slots(right), self.pack);
                let joined = parts(slots, self.kept).saturating_mul(blocks);
                self.add(1, parts(slots, self.pack), 2);
                self.add(2, joined, 0);
                self.select(joined.saturating_mul(self.pack), selected);
            }
        }
    }

    // A statement is served by itself, or begins a batch.
    fn serve(&mut self, stmt: &Stmt, selected: u64) -> Result<(), AllocError> {
        match stmt {
            Stmt::Create {
                table,
                capacity,
                ..
            } => {
                let slots = u64::from(*capacity);
                self.add(1, parts(slots, self.pack), 1);
                let name = table.copied();
                self.held.push(Held { name, slots })?;
            }
            Stmt::Insert { table, .. } => {
                self.into = Some(table.copied());
                self.texts = 1;
                self.add(3, parts(self.slots(table), self.pack), 2);
            }
            Stmt::Update { table, .. } | Stmt::Delete { table, .. } => {
                self.add(2, parts(self.slots(table), self.pack), 2);
            }
            Stmt::Drop { .. } => self.add(0, 0, 1),
            Stmt::SelectRows(select) => self.select_from(&select.source, selected),
            Stmt::SelectTotals(select) => {
                self.add(1, parts(self.slots(&select.table), self.pack), 0);
            }
        }
        Ok(())
    }

    // Whether a statement goes into the batch of those before it.
    fn is_gathered(&self, stmt: &Stmt) -> bool {
        match (stmt, &self.into) {
            (Stmt::Insert { table, .. }, Some(into)) => *table == *into && self.texts < self.batch,
            _ => false,
        }
    }

    /// A statement comes, which is answered so.
    pub fn take(&mut self, stmt: &Stmt, answer: &Answer) -> Result<(), AllocError> {
        if self.is_gathered(stmt) {
            self.texts = self.texts.saturating_add(1);
            return Ok(());
        }
        self.end_batch();
        match answer {
            Answer::Rows(rows) => self.serve(stmt, rows.as_slice().len() as u64),
            // (over flat tables no other refusals come after accesses)
            Answer::Refused(Refusal::Duplicate | Refusal::Full | Refusal::TooManyGroups)
            | Answer::Done
            | Answer::Changed(_) => self.serve(stmt, 0),
            Answer::Refused(_) => Ok(()),
        }
    }

    /// A text comes that is no statement.
    pub fn end_batch(&mut self) {
        self.into = None;
    }
}
