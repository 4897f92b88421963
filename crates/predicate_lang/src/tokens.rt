//! Tokens, as the reader takes them one by one.

use crate::trees::{Literal, Op, Word};

/// A token. A name is the place of its column in the schema, if there is one.
#[derive(Drop)]
pub(crate) enum Token {
    And,
    Or,
    Not,
    All,
    In,
    Column(Option<u8>),
    Value(Literal),
    Operator(Op),
    OpenBracket,
    CloseBracket,
    Comma,
}

/// A token, the offset of its first byte, and the offset after its last.
#[derive(Drop)]
pub(crate) struct Lexeme {
    pub token: Token,
    pub at: u32,
    pub end: usize,
}

/// A quoted text, and how many bytes follow its opening quote, the closing one among them.
#[derive(Drop)]
pub(crate) struct Quote {
    pub word: Word,
    pub bytes: usize,
}
