//! A case as its file spells it: what is typed, and what must come of it.
ghost use Rattle.std.specs.Prelude.{◌≤◌, IfOk};
ghost use Rattle.ob_reopen.specs.Keepers.{AreSaltBytes, IsMark};

use ob_reopen::Mark;
use std::alloc::{AllocError, AllocFailed, Global};

/// The first line of an input where a case names none: a secret of zeros.
pub const SECRET: &str = "0000000000000000000000000000000000000000000000000000000000000000";

/// The greatest number of a region, or of a write, that a mark may have.
const MOST: u64 = 9_223_372_036_854_775_807;

/// What may differ from what a case wants.
#[derive(Clone, Copy, Debug, PartialEq, Eq)]
pub enum Part {
    Answers,
    Accesses,
    Total,
    Asked,
    Left,
    Status,
    Mark,
}

impl Part {
    /// Its word in a file.
    pub fn word(self) -> &'static str {
        match self {
            Part::Answers => "answers",
            Part::Accesses => "accesses",
            Part::Total => "total",
            Part::Asked => "asked",
            Part::Left => "left",
            Part::Status => "status",
            Part::Mark => "mark",
        }
    }

    // The part of a word.
    fn of_word(word: &str) -> Option<Part> {
        match word {
            "answers" => Some(Part::Answers),
            "accesses" => Some(Part::Accesses),
            "total" => Some(Part::Total),
            "asked" => Some(Part::Asked),
            "left" => Some(Part::Left),
            "status" => Some(Part::Status),
            "mark" => Some(Part::Mark),
            _ => None,
        }
    }
}

/// What a sink takes.
#[derive(Drop)]
pub struct Taking {
    /// The numbers of its calls that fail.
    pub fail: Vec<u64>,
    /// How many bytes it takes; without one more than there are.
    pub room: Option<u64>,
    /// How many bytes it has to have taken, of those that the lines spell; without one all.
    pub taken: Option<u64>,
}

/// One run: what is typed, and what it must answer, ask and end with.
#[derive(Drop)]
pub struct Run {
    pub words: Vec<String>,
    /// The input, from its first byte.
    pub input: Vec<u8>,
    /// The numbers of the calls of the input that fail.
    pub reads: Vec<u64>,
    /// What the sink of the answers takes.
    pub writes: Taking,
    /// What the sink of the accesses takes.
    pub traces: Taking,
    /// What others do to the store, as `--meddle` spells it.
    pub changes: Option<String>,
    /// From which access of the run on all calls of the store fail.
    pub dies: Option<u64>,
    /// What is answered, line by line; without one it isn't looked at.
    pub answers: Option<Vec<u8>>,
    /// The accesses, one a line, as the trace has them; a line that is a number stands for so many of any
    /// kind. Without one the accesses aren't looked at.
    pub accesses: Option<Vec<u8>>,
    /// How many accesses are asked, and traced.
    pub total: Option<u64>,
    /// How many are asked, traced or not.
    pub asked: Option<u64>,
    /// How many bytes are read of the input after the run, to its end or to a call that fails.
    pub left: Option<u64>,
    pub status: u64,
    /// The mark that the keeper holds afterwards; without one it isn't looked at.
    pub mark: Option<Mark>,
}

/// A session; or runs over one store, each over what the one before it left, with a keeper.
#[derive(Drop)]
pub struct Case {
    pub name: String,
    /// The mark that the keeper holds before the first run, where there is one: without it a single run is served over
    /// a store that its words have changed.
    pub keeper: Option<String>,
    /// The numbers of the keeper's calls that fail, over all runs. To look at the mark after a run is a call.
    pub faults: Vec<u64>,
    /// The salts that the keeper draws, one after the other; after the last one it fails.
    pub salts: Vec<[u8; 16]>,
    pub runs: Vec<Run>,
    /// Whether the rows of an answer may come in any order.
    pub unordered: bool,
    /// What has to differ: this case, or one that its lines make, wants something wrong, to show that it is noticed.
    pub differs: Option<Part>,
    /// In how many of them that differs.
    pub differing: u64,
}

/// Why a line of a file can't be taken.
#[derive(Debug, PartialEq, Eq, Drop)]
pub enum LineErr {
    /// It has no form of a line.
    Form,
    NoMemory,
}

impl From<AllocError> for LineErr {
    fn from(_error: AllocError) -> LineErr {
        LineErr::NoMemory
    }
}

impl From<AllocFailed<String>> for LineErr {
    fn from(_error: AllocFailed<String>) -> LineErr {
        LineErr::NoMemory
    }
}

impl From<AllocFailed<u8>> for LineErr {
    fn from(_error: AllocFailed<u8>) -> LineErr {
        LineErr::NoMemory
    }
}

impl From<AllocFailed<u64>> for LineErr {
    fn from(_error: AllocFailed<u64>) -> LineErr {
        LineErr::NoMemory
    }
}

impl Taking {
    // A sink that takes all.
    fn new(alloc: Global) -> Taking {
        Taking {
            fail: Vec::new(alloc),
            room: None,
            taken: None,
        }
    }

    // Takes which calls fail, or how many bytes it takes.
    fn take(&mut self, rest: &str) -> Result<(), LineErr> {
        if let Some(calls) = rest.strip_prefix("fail ") {
            return push_numbers(&mut self.fail, calls);
        }
        match rest.strip_prefix("hold ") {
            Some(room) => {
                self.room = Some(number(room)?);
                Ok(())
            }
            None => Err(LineErr::Form),
        }
    }
}

impl Run {
    // A run that types nothing and wants nothing.
    fn new(alloc: Global) -> Result<Run, LineErr> {
        let mut input = Vec::new(alloc);
        push_line(&mut input, SECRET)?;
        Ok(Run {
            words: Vec::new(alloc),
            input,
            reads: Vec::new(alloc),
            writes: Taking::new(alloc),
            traces: Taking::new(alloc),
            changes: None,
            dies: None,
            answers: None,
            accesses: None,
            total: None,
            asked: None,
            left: None,
            status: 0,
            mark: None,
        })
    }

    // Takes a line of its own.
    fn take(&mut self, alloc: Global, head: &str, rest: &str) -> Result<(), LineErr> {
        match head {
            "words" => self.take_words(alloc, rest),
            "key" => {
                self.input.clear();
                push_line(&mut self.input, rest)
            }
            ">" => push_line(&mut self.input, rest),
            "times" => self.take_many(rest),
            "cut" => {
                self.input.truncate(number(rest)? as usize);
                Ok(())
            }
            "changes" => {
                self.changes = Some(String::from_str(alloc, rest)?);
                Ok(())
            }
            "dies" => {
                self.dies = Some(number(rest)?);
                Ok(())
            }
            "<" => self.take_answer(alloc, rest),
            "@" => self.take_accesses(alloc, rest),
            "total" => {
                self.total = Some(number(rest)?);
                Ok(())
            }
            "status" => {
                self.status = number(rest)?;
                Ok(())
            }
            "mark" => {
                self.mark = Some(mark_of(rest)?);
                Ok(())
            }
            _ => self.take_streams(head, rest),
        }
    }

    // Takes a line of the input and of the sinks.
    fn take_streams(&mut self, head: &str, rest: &str) -> Result<(), LineErr> {
        match head {
            "reads" => match rest.strip_prefix("fail ") {
                Some(calls) => push_numbers(&mut self.reads, calls),
                None => Err(LineErr::Form),
            },
            "writes" => self.writes.take(rest),
            "traces" => self.traces.take(rest),
            "written" => {
                self.writes.taken = Some(number(rest)?);
                Ok(())
            }
            "traced" => {
                self.traces.taken = Some(number(rest)?);
                Ok(())
            }
            "asked" => {
                self.asked = Some(number(rest)?);
                Ok(())
            }
            "left" => {
                self.left = Some(number(rest)?);
                Ok(())
            }
            _ => Err(LineErr::Form),
        }
    }

    // Words of the command line, parted by blanks.
    fn take_words(&mut self, alloc: Global, words: &str) -> Result<(), LineErr> {
        for word in words.split(' ') {
            self.words.push(String::from_str(alloc, word)?)?;
        }
        Ok(())
    }

    // A number and a text, which is typed so often, with no end of a line.
    fn take_many(&mut self, rest: &str) -> Result<(), LineErr> {
        let Some((times, text)) = rest.split_once(' ') else {
            return Err(LineErr::Form);
        };
        for _ in 0..number(times)? {
            self.input.extend_from_slice(text.as_bytes())?;
        }
        Ok(())
    }

    // A line that is answered; nothing at all is answered where there is none.
    fn take_answer(&mut self, alloc: Global, line: &str) -> Result<(), LineErr> {
        let mut all = self.answers.take().unwrap_or(Vec::new(alloc));
        if !line.is_empty() {
            push_line(&mut all, line)?;
        }
        self.answers = Some(all);
        Ok(())
    }

    // Accesses as the trace has them, or numbers, parted by commas; none at all where there is nothing.
    fn take_accesses(&mut self, alloc: Global, rest: &str) -> Result<(), LineErr> {
        let mut all = self.accesses.take().unwrap_or(Vec::new(alloc));
        for access in rest.split(',') {
            let access = access.trim();
            if !access.is_empty() {
                push_line(&mut all, access)?;
            }
        }
        self.accesses = Some(all);
        Ok(())
    }
}

impl Case {
    /// A case of this name, of one run that types nothing and wants nothing.
    pub fn new(alloc: Global, name: &str) -> Result<Case, LineErr> {
        let mut runs = Vec::new(alloc);
        let run = Run::new(alloc)?;
        if runs.push(run).is_err() {
            return Err(LineErr::NoMemory);
        }
        Ok(Case {
            name: String::from_str(alloc, name)?,
            keeper: None,
            faults: Vec::new(alloc),
            salts: Vec::new(alloc),
            runs,
            unordered: false,
            differs: None,
            differing: 0,
        })
    }

    /// Takes the next line of its file.
    pub fn take(&mut self, alloc: Global, line: &str) -> Result<(), LineErr> {
        let (head, rest) = line.split_once(' ').unwrap_or((line, ""));
        self.take_part(alloc, head, rest)
    }

    /// Takes a line by its first word and what follows. What lines `each` and `else` say is for the cases that they make.
    pub fn take_part(&mut self, alloc: Global, head: &str, rest: &str) -> Result<(), LineErr> {
        match head {
            "each" | "else" => Ok(()),
            "keeper" => {
                self.keeper = Some(String::from_str(alloc, rest)?);
                Ok(())
            }
            "faults" => push_numbers(&mut self.faults, rest),
            "salts" => self.take_salts(rest),
            "then" => {
                let run = Run::new(alloc)?;
                match self.runs.push(run) {
                    Ok(()) => Ok(()),
                    Err(_) => Err(LineErr::NoMemory),
                }
            }
            "unordered" => {
                self.unordered = true;
                Ok(())
            }
            "differs" => self.take_differs(rest),
            _ => match self.runs.last_mut() {
                Some(run) => run.take(alloc, head, rest),
                None => Err(LineErr::Form),
            },
        }
    }

    // Salts, parted by commas.
    fn take_salts(&mut self, rest: &str) -> Result<(), LineErr> {
        for word in rest.split(',') {
            let salt = salt_of(word.trim())?;
            match self.salts.push(salt) {
                Ok(()) => {}
                Err(_) => return Err(LineErr::NoMemory),
            }
        }
        Ok(())
    }

    // The part that differs, and in how many cases, where lines make others.
    fn take_differs(&mut self, rest: &str) -> Result<(), LineErr> {
        let (word, times) = rest.split_once(" in ").unwrap_or((rest, "1"));
        let Some(part) = Part::of_word(word) else {
            return Err(LineErr::Form);
        };
        self.differs = Some(part);
        self.differing = number(times)?;
        Ok(())
    }
}

/// Pushes a case after the others.
pub fn push_case(cases: &mut Vec<Case>, case: Case) -> Result<(), LineErr> {
    match cases.push(case) {
        Ok(()) => Ok(()),
        Err(_) => Err(LineErr::NoMemory),
    }
}

/// The mark that a text spells: `fresh`, `in use`, `begun`, `closed REGION BLOCKS NUMBER PACK`, or
/// `saved REGION BLOCKS NUMBER PACK SALT CHECK`.
pub fn mark_of(text: &str) -> Result<Mark, LineErr>
    ensures { IfOk result IsMark }
{
    match text {
        "fresh" => Ok(Mark::Fresh),
        "in use" => Ok(Mark::InUse),
        "begun" => Ok(Mark::Begun),
        _ => named_of(text),
    }
}

// The mark of a closing.
fn named_of(text: &str) -> Result<Mark, LineErr>
    ensures { IfOk result IsMark }
{
    let Some((head, rest)) = text.split_once(' ') else {
        return Err(LineErr::Form);
    };
    match head {
        "closed" => closed_of(rest),
        "saved" => saved_of(rest),
        _ => Err(LineErr::Form),
    }
}

// That of a run that was closed, by its numbers.
fn closed_of(text: &str) -> Result<Mark, LineErr>
    ensures { IfOk result IsMark }
{
    let (region, rest) = numbered(text, MOST)?;
    let (blocks, rest) = numbered(rest, 65)?;
    let (first, pack) = numbered(rest, MOST)?;
    Ok(Mark::Closed {
        region,
        blocks: blocks as u32,
        number: first,
        pack: number_to(pack, 16)? as u8,
    })
}

// That of a run that saved its tables, by its numbers, its salt and the check value of that.
fn saved_of(text: &str) -> Result<Mark, LineErr>
    ensures { IfOk result IsMark }
{
    let (region, rest) = numbered(text, MOST)?;
    let (blocks, rest) = numbered(rest, 65)?;
    let (first, rest) = numbered(rest, MOST)?;
    let (pack, rest) = numbered(rest, 16)?;
    let Some((salt, check)) = rest.split_once(' ') else {
        return Err(LineErr::Form);
    };
    Ok(Mark::Saved {
        region,
        blocks: blocks as u32,
        number: first,
        pack: pack as u8,
        salt: salt_of(salt)?,
        check: salt_of(check)?,
    })
}

// A number from 1 to this one before a text's first blank, and what is after it.
fn numbered(text: &str, most: u64) -> Result<(u64, &str), LineErr>
    ensures { IfOk result (λ r. (1 ≤ r.0) × (r.0 ≤ most)) }
{
    match text.split_once(' ') {
        Some((digits, rest)) => Ok((number_to(digits, most)?, rest)),
        None => Err(LineErr::Form),
    }
}

// A salt, or a check value, of 32 hexadecimal digits.
fn salt_of(digits: &str) -> Result<[u8; 16], LineErr>
    ensures { IfOk result AreSaltBytes }
{
    let mut salt = [0; 16];
    match hex::decode_to_slice(digits.as_bytes(), &mut salt) {
        Ok(()) => Ok(salt),
        Err(_) => Err(LineErr::Form),
    }
}

// A number from 1 to this one.
fn number_to(text: &str, most: u64) -> Result<u64, LineErr>
    ensures { IfOk result (λ n. (1 ≤ n) × (n ≤ most)) }
{
    let n = number(text)?;
    if 1 <= n && n <= most {
        Ok(n)
    } else {
        Err(LineErr::Form)
    }
}

fn number(text: &str) -> Result<u64, LineErr> {
    match text.parse::<u64>() {
        Ok(n) => Ok(n),
        Err(_) => Err(LineErr::Form),
    }
}

// Pushes numbers, parted by commas.
fn push_numbers(numbers: &mut Vec<u64>, text: &str) -> Result<(), LineErr> {
    for word in text.split(',') {
        let n = number(word.trim())?;
        numbers.push(n)?;
    }
    Ok(())
}

// Puts a line and its end after what is there.
fn push_line(bytes: &mut Vec<u8>, line: &str) -> Result<(), LineErr> {
    bytes.extend_from_slice(line.as_bytes())?;
    bytes.push(b'\n')?;
    Ok(())
}
