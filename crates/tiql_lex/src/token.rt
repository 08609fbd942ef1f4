//! What a token is.

use base_kit::{Duplicate, List, Memory, Place, copy_list};
use std::alloc::Global;

/// The kinds of tokens (docs/LANGUAGE.md, "Tokens").
#[derive(Clone, Copy, Debug, PartialEq, Eq)]
pub enum TokenKind {
    /// A word of at most 64 bytes that is not reserved.
    Name,
    /// A reserved word.
    Keyword,
    /// Digits of a value of at most 10^15.
    Number,
    /// A text in quotes, of UTF-8 and at most 1,000 bytes without its quotes.
    Text,
    /// One of the signs, of one byte or two.
    Sign,
}

/// One token of a text.
#[derive(Clone, Copy, Debug, PartialEq, Eq)]
pub struct Token {
    /// What it is.
    pub kind: TokenKind,
    /// The place of its first byte.
    pub place: Place,
    /// The number of its first byte, counted from 0 in the bytes as they came, a byte order mark included.
    pub from: u32,
    /// The number of the first byte behind it.
    pub to: u32,
}

/// The tokens of a text, up to the first place where none begins.
#[derive(Debug, Drop)]
pub struct Lexed {
    /// The tokens as they follow one another.
    pub tokens: List<Token>,
    /// Where something stands behind the tokens, white space and comments that is no token: an opening quote of a text that
    /// is not closed, too long or not UTF-8, the first byte of a name or number that is too large, or any other byte.
    pub stop: Option<Place>,
    /// The place behind the last byte.
    pub end: Place,
}

impl Duplicate for Token {
    fn copy(&self, _alloc: Global) -> Result<Token, Memory> {
        Ok(*self)
    }
}

impl Duplicate for Lexed {
    fn copy(&self, alloc: Global) -> Result<Lexed, Memory> {
        Ok(Lexed {
            tokens: copy_list(alloc, self.tokens.as_slice())?,
            stop: self.stop,
            end: self.end,
        })
    }
}
