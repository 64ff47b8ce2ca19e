//! The tokens of a text.
use ob_base::Name;

/// A keyword or a sign; `!=` is `<>`.
#[derive(Clone, Copy, Debug, PartialEq, Eq)]
pub enum Mark {
    Select,
    From,
    Where,
    Group,
    By,
    Inner,
    Join,
    On,
    And,
    Or,
    Not,
    Null,
    Insert,
    Into,
    Values,
    Update,
    Set,
    Delete,
    Create,
    Table,
    Drop,
    Primary,
    Key,
    Int,
    Integer,
    Varchar,
    Capacity,
    Indexed,
    Count,
    Sum,
    Min,
    Max,
    Open,
    Close,
    Comma,
    Semicolon,
    Dot,
    Star,
    Equal,
    NotEqual,
    Less,
    LessOrEqual,
    Greater,
    GreaterOrEqual,
    Plus,
    Minus,
}

/// What a token is. A number is kept up to the largest of 64 bits; the bytes of a text stay where they are.
#[derive(Debug, Drop)]
pub enum Lexeme {
    Mark(Mark),
    Name(Name),
    Number(u64),
    Text,
    /// Bytes that are no token.
    Bad,
}

/// A token, and where it stands: the offsets of its first byte and after its last one.
#[derive(Debug, Drop)]
pub struct Token {
    pub lexeme: Lexeme,
    pub from: u32,
    pub to: u32,
}
