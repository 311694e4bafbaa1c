//! Tokens and their kinds.

/// The kinds of tokens (EDN).
#[derive(Clone, Copy, Debug, PartialEq, Eq)]
pub enum TokenKind {
    /// `(`, `[`, `{` or `#{`.
    Open,
    /// `)`, `]` or `}`.
    Close,
    /// A string with its quotes.
    Str,
    /// A character with its backslash.
    Char,
    /// `#_`, which leaves the next form out.
    Drop,
    /// `#` and a run that may be empty.
    Tag,
    Nil,
    True,
    False,
    Int,
    /// A keyword with its colon.
    Keyword,
    Symbol,
    /// Any other run.
    Other,
}

/// A token: the bytes of the text from `start` up to `end`, which is no part of it.
#[derive(Clone, Copy, Debug, PartialEq, Eq)]
pub struct Token {
    pub kind: TokenKind,
    pub start: usize,
    pub end: usize,
}
