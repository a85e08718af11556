use sys_base::Key;

/// A token of a source text: what it is, where its bytes stand, and the line and the column of its first byte.
///
/// Bytes are counted from 0, lines and columns from 1; a column is a number of bytes.
#[derive(Clone, Copy, Debug, PartialEq, Eq)]
pub struct Token {
    pub sort: Sort,
    pub at: u32,
    pub len: u32,
    pub line: u32,
    pub column: u32,
}

/// What a token is.
#[derive(Clone, Copy, Debug, PartialEq, Eq)]
pub enum Sort {
    /// A name; its bytes are those of the text.
    Name,
    /// A number, by its value.
    Number(u64),
    Key(Key),
    Mark(Mark),
}

/// A mark of the source language, in the order `{ } [ ] ( ) ; . = == != < <= + - * / %`.
#[derive(Clone, Copy, Debug, PartialEq, Eq)]
pub enum Mark {
    OpenBrace,
    CloseBrace,
    OpenBracket,
    CloseBracket,
    OpenParen,
    CloseParen,
    Semicolon,
    Dot,
    Assign,
    Same,
    Differ,
    Less,
    AtMost,
    Plus,
    Minus,
    Star,
    Slash,
    Percent,
}
