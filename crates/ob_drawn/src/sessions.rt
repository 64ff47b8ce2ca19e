//! A session: what is typed, and what is wanted of it.
use crate::accesses::Accesses;
use crate::draws::Draws;
use crate::pen::Pen;
use crate::plain::{answer, put_answer, read, replay};
use crate::settings::Settings;
use crate::statements::{What, put_text};
use crate::tables::Tables;
use ob_base::Refusal;
use ob_mean::Answer;
use ob_parse::ParseErr;
use ob_reference::Database;
use ob_sql::Stmt;
use ob_token::{Piece, split};
use std::alloc::{AllocError, Global};

/// So many texts are drawn, of which those are left out whose answer nobody knows.
const TEXTS: usize = 24;

/// A session that was drawn.
#[derive(Drop)]
pub struct Session {
    pub seed: u64,
    pub number: u64,
    pub settings: Settings,
    /// What is typed after the first line.
    pub typed: Pen,
    /// What is answered.
    pub answers: Pen,
    /// What is asked where each INSERT is served by itself.
    pub alone: Accesses,
    /// What is asked where they are served together.
    pub together: Accesses,
    pub texts: u64,
    pub refused: u64,
    /// A byte of the answers: that it is another one has to be noticed.
    pub slip: usize,
}

impl Session {
    // No text is typed yet.
    fn new(alloc: Global, seed: u64, number: u64) -> Session {
        let settings = Settings::of_session(number);
        Session {
            seed,
            number,
            settings,
            typed: Pen::new(alloc),
            answers: Pen::new(alloc),
            alone: Accesses::new(alloc, settings, None),
            together: Accesses::new(alloc, settings, settings.batch),
            texts: 0,
            refused: 0,
            slip: 0,
        }
    }

    // A text is typed, which is answered so.
    fn take(&mut self, text: &[u8], what: &What, head: &[u8], answer: &Answer) {
        self.typed.write(text);
        self.typed.put("\n");
        put_answer(&mut self.answers, what, head, answer);
        self.texts = self.texts.saturating_add(1);
        if matches!(answer, Answer::Refused(_)) {
            self.refused = self.refused.saturating_add(1);
        }
    }
}

// Takes a text that is a statement, and tells whether it was carried out, with nothing to tell.
fn take_statement(
    alloc: Global,
    db: &mut Database,
    session: &mut Session,
    stmt: &Stmt,
    text: &[u8],
    what: &What,
    head: &[u8],
) -> Result<bool, AllocError> {
    let Ok(answer) = answer(alloc, session.settings, db, stmt) else {
        return Err(AllocError);
    };
    if matches!(what, What::Unknown) && !matches!(answer, Answer::Refused(_)) {
        // (a statement still, but nobody knows of which kind)
        *db = Database::new(alloc);
        return match replay(alloc, session.settings, session.typed.bytes(), db) {
            Ok(()) => Ok(false),
            Err(_) => Err(AllocError),
        };
    }
    session.alone.take(stmt, &answer)?;
    session.together.take(stmt, &answer)?;
    session.take(text, what, head, &answer);
    Ok(matches!(answer, Answer::Done))
}

// Takes a text, unless it is none or more than one, and tells whether it was carried out, with nothing to tell.
fn take(
    alloc: Global,
    db: &mut Database,
    session: &mut Session,
    text: &[u8],
    what: &What,
    head: &[u8],
) -> Result<bool, AllocError> {
    match split(text) {
        Piece::Stmt { from: 0, to } if to == text.len() => {}
        _ => return Ok(false),
    }
    match read(alloc, text) {
        Ok(stmt) => take_statement(alloc, db, session, &stmt, text, what, head),
        Err(ParseErr::Syntax(at)) => {
            session.alone.end_batch();
            session.together.end_batch();
            session.take(text, what, head, &Answer::Refused(Refusal::Syntax(at)));
            Ok(false)
        }
        Err(ParseErr::NoMemory) => Err(AllocError),
    }
}

// Draws the n-th text, and takes it. Which tables there are follows from what it is answered.
fn add(
    alloc: Global,
    draws: &mut Draws,
    tables: &mut Tables,
    db: &mut Database,
    session: &mut Session,
    n: usize,
) -> Result<(), AllocError> {
    let mut text = Pen::new(alloc);
    let mut head = Pen::new(alloc);
    let what = put_text(alloc, draws, tables, n, &mut text, &mut head)?;
    if !text.is_whole() || !head.is_whole() {
        return Err(AllocError);
    }
    if !take(alloc, db, session, text.bytes(), &what, head.bytes())? {
        return Ok(());
    }
    match what {
        What::Create(table) => tables.add(table),
        What::Drop(name) => {
            tables.remove(name);
            Ok(())
        }
        What::Insert | What::Update | What::Delete | What::Select | What::Unknown => Ok(()),
    }
}

// Draws the texts, and a byte of what they are answered.
fn fill(alloc: Global, session: &mut Session) -> Result<(), AllocError> {
    let mut draws = Draws::new(session.seed, session.number, session.settings.kind);
    let mut tables = Tables::new(alloc);
    let mut db = Database::new(alloc);
    for n in 0..TEXTS {
        match add(alloc, &mut draws, &mut tables, &mut db, session, n) {
            Ok(()) => {}
            Err(error) => return Err(error),
        }
    }
    session.slip = draws.below(session.answers.bytes().len());
    if session.typed.is_whole() && session.answers.is_whole() {
        Ok(())
    } else {
        Err(AllocError)
    }
}

/// The session with this number.
pub fn drawn(alloc: Global, seed: u64, number: u64) -> Result<Session, AllocError> {
    let mut session = Session::new(alloc, seed, number);
    match fill(alloc, &mut session) {
        Ok(()) => Ok(session),
        Err(error) => Err(error),
    }
}
