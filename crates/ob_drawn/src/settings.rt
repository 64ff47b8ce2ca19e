//! Under which settings sessions are served.
use crate::pen::Pen;
use std::alloc::Global;

/// What the statements of a session are.
#[derive(Clone, Copy)]
pub enum Kind {
    /// Any, over flat tables.
    Flat,
    /// Any, most of them over indexes.
    Indexed,
    /// More than half of them INSERTs, most of which go into the table of the statement before.
    Batched,
}

/// The settings of a session.
#[derive(Clone, Copy)]
pub struct Settings {
    pub kind: Kind,
    /// How many rows may be open.
    pub buffer: u32,
    /// The rows of a block.
    pub pack: u8,
    /// The word of its plan.
    pub plan: &'static str,
    /// The slots of a stash: room for all keys of any index that the open rows are enough for.
    pub stash: u32,
    /// How many INSERTs are served together, where they are, too: then by a plan whose accesses follow from how many rows
    /// are selected.
    pub batch: Option<u32>,
}

const SETTINGS: [(Kind, u32, u8, &str, u32, Option<u32>); 24] = [
    (Kind::Flat, 64, 1, "auto", 32, None),
    (Kind::Indexed, 64, 1, "auto", 32, None),
    (Kind::Batched, 64, 1, "small", 32, Some(4)),
    (Kind::Flat, 4, 1, "auto", 32, None),
    (Kind::Batched, 4, 1, "small", 32, Some(65_535)),
    (Kind::Indexed, 64, 16, "auto", 32, None),
    (Kind::Flat, 7, 2, "auto", 32, None),
    (Kind::Batched, 7, 2, "large", 32, Some(65_535)),
    (Kind::Flat, 16, 4, "auto", 32, None),
    (Kind::Indexed, 25, 1, "auto", 8, None),
    (Kind::Batched, 16, 4, "small", 32, Some(2)),
    (Kind::Flat, 10, 3, "cheapest", 32, None),
    (Kind::Batched, 10, 3, "large", 32, Some(3)),
    (Kind::Indexed, 17, 2, "small", 4, None),
    (Kind::Flat, 64, 16, "auto", 32, None),
    (Kind::Batched, 64, 16, "small", 32, Some(8)),
    (Kind::Flat, 8, 1, "small", 32, None),
    (Kind::Indexed, 80, 8, "large", 24, None),
    (Kind::Batched, 8, 1, "small", 32, Some(2)),
    (Kind::Flat, 8, 2, "large", 32, None),
    (Kind::Batched, 5, 1, "large", 32, Some(4)),
    (Kind::Indexed, 49, 3, "cheapest", 24, None),
    (Kind::Flat, 5, 1, "cheapest", 32, None),
    (Kind::Batched, 49, 16, "small", 32, Some(65_535)),
];

impl Settings {
    /// The settings of the session with this number.
    pub fn of_session(number: u64) -> Settings {
        let (kind, buffer, pack, plan, stash, batch) = SETTINGS[(number % 24) as usize];
        Settings {
            kind,
            buffer,
            pack,
            plan,
            stash,
            batch,
        }
    }

    /// The words that say them, with those of a batch or without.
    pub fn words(&self, alloc: Global, batch: Option<u32>) -> Pen {
        let mut words = Pen::new(alloc);
        words.put("--buffer ");
        words.put_number(self.buffer);
        words.put(" --pack ");
        words.put_number(self.pack);
        words.put(" --plan ");
        words.put(self.plan);
        words.put(" --stash ");
        words.put_number(self.stash);
        if let Some(most) = batch {
            words.put(" --batch ");
            words.put_number(most);
        }
        words
    }
}
