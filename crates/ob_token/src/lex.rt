//! A text is cut into tokens.
ghost use Rattle.std.specs.Prelude.{◌≡◌, ◌+◌, ◌≤◌, ◌<◌, ◌==◌, true, [], ◌∷◌, length, map, drop, if◌then◌else◌, vec_capacity, IfOk, IfSome, IsOk, MatchOption};
ghost use Rattle.ob_token.specs.Bytes.{all_digits, comment_len, is_blank, is_digit, is_letter, is_printable, is_run, lower, magnitude, quoted_len, run};
ghost use Rattle.ob_token.specs.Words.{keyword, statement_word, clause_word, column_word, aggregate_word, lone_sign, pair_sign};
ghost use Rattle.ob_token.specs.Lexemes.{first_byte, gap, piece, run_lexeme, sign_piece, some_piece, word_lexeme};
ghost use Rattle.ob_token.specs.Tokens.{bad, tokens_from, tokens_of};

use crate::token::{Lexeme, Mark, Token};
use arrayvec::ArrayVec;
use ob_base::{Name, NoMemory};
use std::alloc::Global;

/// Space, tab, CR or LF.
pub fn is_blank_byte(b: u8) -> bool
    ensures { result ≡ is_blank b }
{
    b == b' ' || b == b'\t' || b == b'\r' || b == b'\n'
}

fn is_digit_byte(b: u8) -> bool
    ensures { result ≡ is_digit b }
{
    b'0' <= b && b <= b'9'
}

fn is_letter_byte(b: u8) -> bool
    ensures { result ≡ is_letter b }
{
    (b'A' <= b && b <= b'Z') || (b'a' <= b && b <= b'z')
}

fn is_run_byte(b: u8) -> bool
    ensures { result ≡ is_run b }
{
    is_letter_byte(b) || is_digit_byte(b) || b == b'_'
}

/// A byte that a text may have: 0x20 to 0x7E.
pub fn is_printable_byte(b: u8) -> bool
    ensures { result ≡ is_printable b }
{
    32 <= b && b <= 126
}

fn lower_byte(b: u8) -> u8
    ensures { result ≡ lower b }
{
    if b'A' <= b && b <= b'Z' { b + 32 } else { b }
}

// How many bytes at the front belong to one run.
fn run_len(bytes: &[u8]) -> usize
    ensures { result ≡ length (run bytes.now) }
{
    for (i, b) in bytes.iter().enumerate() {
        if !is_run_byte(*b) {
            return i;
        }
    }
    bytes.len()
}

// The length of a comment at the front, with the end of its line.
fn line_len(bytes: &[u8]) -> usize
    ensures { result ≡ comment_len bytes.now }
{
    for (i, b) in bytes.iter().enumerate() {
        if *b == b'\n' {
            return i + 1;
        }
    }
    bytes.len()
}

fn are_digits(bytes: &[u8]) -> bool
    ensures { result ≡ all_digits bytes.now }
{
    for b in bytes {
        if !is_digit_byte(*b) {
            return false;
        }
    }
    true
}

// How many bytes a text takes after its opening quote.
#[tactic(auto, using(crate::proofs::Pieces::quoted_short))]
fn text_len(bytes: &[u8]) -> Option<usize>
    ensures value { result ≡ quoted_len 0 true bytes.now }
    ensures within { IfSome result (λ n. n ≤ length bytes.now) }
{
    let mut open = true;
    for (i, b) in bytes.iter().enumerate() {
        if *b == b'\'' {
            open = !open;
            continue;
        }
        if !open {
            return Some(i);
        }
        if !is_printable_byte(*b) {
            return None;
        }
    }
    if open { None } else { Some(bytes.len()) }
}

fn a_statement_word(word: &[u8]) -> Option<Mark>
    ensures { result ≡ statement_word word.now }
{
    if word == b"select".as_slice() {
        Some(Mark::Select)
    } else if word == b"insert".as_slice() {
        Some(Mark::Insert)
    } else if word == b"update".as_slice() {
        Some(Mark::Update)
    } else if word == b"delete".as_slice() {
        Some(Mark::Delete)
    } else if word == b"create".as_slice() {
        Some(Mark::Create)
    } else if word == b"drop".as_slice() {
        Some(Mark::Drop)
    } else if word == b"into".as_slice() {
        Some(Mark::Into)
    } else if word == b"values".as_slice() {
        Some(Mark::Values)
    } else if word == b"set".as_slice() {
        Some(Mark::Set)
    } else {
        None
    }
}

fn a_clause_word(word: &[u8]) -> Option<Mark>
    ensures { result ≡ clause_word word.now }
{
    if word == b"from".as_slice() {
        Some(Mark::From)
    } else if word == b"where".as_slice() {
        Some(Mark::Where)
    } else if word == b"group".as_slice() {
        Some(Mark::Group)
    } else if word == b"by".as_slice() {
        Some(Mark::By)
    } else if word == b"inner".as_slice() {
        Some(Mark::Inner)
    } else if word == b"join".as_slice() {
        Some(Mark::Join)
    } else if word == b"on".as_slice() {
        Some(Mark::On)
    } else if word == b"and".as_slice() {
        Some(Mark::And)
    } else if word == b"or".as_slice() {
        Some(Mark::Or)
    } else {
        None
    }
}

fn a_column_word(word: &[u8]) -> Option<Mark>
    ensures { result ≡ column_word word.now }
{
    if word == b"not".as_slice() {
        Some(Mark::Not)
    } else if word == b"null".as_slice() {
        Some(Mark::Null)
    } else if word == b"table".as_slice() {
        Some(Mark::Table)
    } else if word == b"primary".as_slice() {
        Some(Mark::Primary)
    } else if word == b"key".as_slice() {
        Some(Mark::Key)
    } else if word == b"int".as_slice() {
        Some(Mark::Int)
    } else if word == b"integer".as_slice() {
        Some(Mark::Integer)
    } else if word == b"varchar".as_slice() {
        Some(Mark::Varchar)
    } else if word == b"capacity".as_slice() {
        Some(Mark::Capacity)
    } else if word == b"indexed".as_slice() {
        Some(Mark::Indexed)
    } else {
        None
    }
}

fn an_aggregate_word(word: &[u8]) -> Option<Mark>
    ensures { result ≡ aggregate_word word.now }
{
    if word == b"count".as_slice() {
        Some(Mark::Count)
    } else if word == b"sum".as_slice() {
        Some(Mark::Sum)
    } else if word == b"min".as_slice() {
        Some(Mark::Min)
    } else if word == b"max".as_slice() {
        Some(Mark::Max)
    } else {
        None
    }
}

fn a_keyword(word: &[u8]) -> Option<Mark>
    ensures { result ≡ keyword word.now }
{
    if let Some(found) = a_statement_word(word) {
        return Some(found);
    }
    if let Some(found) = a_clause_word(word) {
        return Some(found);
    }
    if let Some(found) = a_column_word(word) {
        return Some(found);
    }
    an_aggregate_word(word)
}

fn sign_of_two(a: u8, b: u8) -> Option<Mark>
    ensures { result ≡ pair_sign a b }
{
    match (a, b) {
        (b'<', b'>') => Some(Mark::NotEqual),
        (b'!', b'=') => Some(Mark::NotEqual),
        (b'<', b'=') => Some(Mark::LessOrEqual),
        (b'>', b'=') => Some(Mark::GreaterOrEqual),
        _ => None,
    }
}

fn sign_of_one(a: u8) -> Option<Mark>
    ensures { result ≡ lone_sign a }
{
    match a {
        b'(' => Some(Mark::Open),
        b')' => Some(Mark::Close),
        b',' => Some(Mark::Comma),
        b';' => Some(Mark::Semicolon),
        b'.' => Some(Mark::Dot),
        b'*' => Some(Mark::Star),
        b'=' => Some(Mark::Equal),
        b'<' => Some(Mark::Less),
        b'>' => Some(Mark::Greater),
        b'+' => Some(Mark::Plus),
        b'-' => Some(Mark::Minus),
        _ => None,
    }
}

// The number of these digits, or the largest one of 64 bits.
fn number(digits: &[u8]) -> u64
    requires { all_digits digits.now ≡ true }
    ensures { result ≡ magnitude digits.now }
{
    let mut value: u64 = 0;
    for d in digits {
        value = value.saturating_mul(10).saturating_add((*d - b'0') as u64);
    }
    value
}

// The letters of a run in lower case.
fn lowered(word: &[u8]) -> Name
    requires { length word.now ≤ 32 }
    ensures { result ≡ map lower word.now }
{
    let mut letters: ArrayVec<u8, 32> = ArrayVec::new();
    for b in word {
        letters.push(lower_byte(*b));
    }
    Name::from_bytes(letters.as_slice())
}

fn word_token(word: &[u8]) -> Lexeme
    ensures { result ≡ word_lexeme word.now }
{
    if word.len() > 32 {
        return Lexeme::Bad;
    }
    let name = lowered(word);
    match a_keyword(name.as_bytes()) {
        Some(found) => Lexeme::Mark(found),
        None => Lexeme::Name(name),
    }
}

fn run_token(run: &[u8]) -> Lexeme
    ensures { result ≡ run_lexeme run.now }
{
    match run.first() {
        None => Lexeme::Bad,
        Some(b) => {
            if !is_digit_byte(*b) {
                word_token(run)
            } else if are_digits(run) {
                Lexeme::Number(number(run))
            } else {
                Lexeme::Bad
            }
        }
    }
}

/// The bytes at the front of a text that are one token, or none.
#[derive(Debug, Drop)]
pub(crate) struct Lexed {
    pub len: usize,
    pub lexeme: Option<Lexeme>,
}

impl Lexed {
    fn gap(len: usize) -> Lexed
        ensures { result ≡ gap len }
    {
        Lexed { len, lexeme: None }
    }

    fn of(len: usize, lexeme: Lexeme) -> Lexed
        ensures { result ≡ some_piece len lexeme }
    {
        Lexed {
            len,
            lexeme: Some(lexeme),
        }
    }
}

fn first_or_zero(bytes: &[u8]) -> u8
    ensures { result ≡ first_byte bytes.now }
{
    match bytes.first() {
        Some(b) => *b,
        None => 0,
    }
}

fn sign_or_bad(a: u8, b: u8) -> Lexed
    ensures { result ≡ sign_piece (pair_sign a b) a }
{
    if let Some(found) = sign_of_two(a, b) {
        return Lexed::of(2, Lexeme::Mark(found));
    }
    match sign_of_one(a) {
        Some(found) => Lexed::of(1, Lexeme::Mark(found)),
        None => Lexed::of(1, Lexeme::Bad),
    }
}

#[tactic(auto, using(crate::proofs::Pieces::run_taken, crate::proofs::Pieces::run_short))]
fn run_piece(bytes: &[u8]) -> Lexed
    ensures { result ≡ some_piece (length (run bytes.now)) (run_lexeme (run bytes.now)) }
{
    let len = run_len(bytes);
    Lexed::of(len, run_token(&bytes[..len]))
}

fn piece_of(bytes: &[u8]) -> Lexed
    ensures { result ≡ piece bytes.now }
{
    let Some((first, rest)) = bytes.split_first() else {
        return Lexed::gap(0);
    };
    let second = first_or_zero(rest);
    if is_blank_byte(*first) {
        Lexed::gap(1)
    } else if *first == b'-' && second == b'-' {
        Lexed::gap(line_len(bytes))
    } else if is_run_byte(*first) {
        run_piece(bytes)
    } else if *first == b'\'' {
        match text_len(rest) {
            Some(len) => Lexed::of(len + 1, Lexeme::Text),
            None => Lexed::of(1, Lexeme::Bad),
        }
    } else {
        sign_or_bad(*first, second)
    }
}

// The piece at the front of these bytes.
fn front(bytes: &[u8]) -> Lexed
    ensures value { result ≡ piece bytes.now }
    ensures fits { result.len ≤ length bytes.now }
    ensures moves { 0 < length bytes.now → 0 < result.len }
{
    piece_of(bytes)
}

fn behind(bytes: &[u8], len: usize) -> &[u8]
    requires { len ≤ length bytes.now }
    ensures { result.now ≡ drop len bytes.now }
{
    &bytes[len..]
}

// What is still to be cut after a token: nothing after bytes that are none.
fn unless_bad<'a>(lexeme: &Lexeme, behind: &'a [u8]) -> &'a [u8]
    ensures { result.now ≡ (if bad lexeme.now then [] else behind.now) }
{
    match lexeme {
        Lexeme::Bad => &[],
        _ => behind,
    }
}

/// A token, and what is still to be cut after it: bytes, and their offset.
#[derive(Drop)]
struct Cut<'a> {
    token: Token,
    rest: &'a [u8],
    at: usize,
}

// The first token of bytes that stand at this offset, if there is one.
fn first_token(bytes: &[u8], offset: usize) -> Option<Cut<'_>>
    requires { offset + length bytes.now < 4294967296 }
    ensures value { MatchOption result
        (tokens_from 0 offset bytes.now ≡ [])
        (λ c. tokens_from 0 offset bytes.now ≡ c.token ∷ tokens_from 0 c.at c.rest.now) }
    ensures place { IfSome result (λ c. c.at + length c.rest.now ≤ offset + length bytes.now) }
    ensures moves { IfSome result (λ c. length c.rest.now < length bytes.now) }
{
    let (mut rest, mut at) = (bytes, offset);
    'gaps: while !rest.is_empty() {
        let Lexed { len, lexeme } = front(rest);
        let (from, to) = (at as u32, (at + len) as u32);
        rest = behind(rest, len);
        at += len;
        if let Some(lexeme) = lexeme {
            let rest = unless_bad(&lexeme, rest);
            let token = Token { lexeme, from, to };
            return Some(Cut { token, rest, at });
        }
    }
    None
}

fn count(text: &[u8]) -> usize
    requires { length text.now < 4294967296 }
    ensures { result ≡ length (tokens_of text.now) }
{
    let mut count: usize = 0;
    let (mut left, mut offset) = (text, 0);
    'tokens: while let Some(Cut { rest, at, .. }) = first_token(left, offset) {
        count += 1;
        (left, offset) = (rest, at);
    }
    count
}

/// The tokens of a text in order; bytes that are no token are the last one. The list is made for as many as there
/// are, and does not grow.
pub fn tokens(alloc: Global, text: &[u8]) -> Result<Vec<Token>, NoMemory>
    requires { length text.now < 4294967296 }
    ensures value { IfOk result (λ found. found.items ≡ tokens_of text.now) }
    ensures exact { IfOk result (λ found. vec_capacity found ≡ length (tokens_of text.now)) }
    ensures succeeds { tokens_of text.now ≡ [] → IsOk result }
{
    let Ok(mut found) = Vec::with_capacity(alloc, count(text)) else {
        return Err(NoMemory);
    };
    let (mut left, mut offset) = (text, 0);
    'tokens: while let Some(Cut { token, rest, at }) = first_token(left, offset) {
        found.push_reserved(token);
        (left, offset) = (rest, at);
    }
    Ok(found)
}
