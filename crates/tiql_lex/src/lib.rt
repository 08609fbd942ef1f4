//! Splits the text of a query into its tokens.
#![tactic(auto)]

mod blank;
mod lexeme;
mod lexer;
mod scan;
mod token;
mod value;

pub use lexer::{one_lexing, tokens};
pub use token::{Lexed, Token, TokenKind};
pub use value::{number_value, text_value};
