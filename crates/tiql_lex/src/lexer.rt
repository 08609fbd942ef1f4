//! All tokens of a text.
ghost use Rattle.std.specs.Prelude.{◌≡◌, ◌^◌, ◌<◌, ◌-◌, List, ℕ, length, IfOk};
ghost use Rattle.tiql_lex.specs.declared.token.Lexed.{Lexed};
ghost use Rattle.tiql_lex.specs.Lexed.{IsLexed};

use crate::scan::{moved, skip, start, token_at};
use crate::token::Lexed;
use base_kit::{List, Memory};
use std::alloc::Global;

/// The tokens of the bytes, which are fewer than 2^32 - 1, up to the first place where none begins (docs/LANGUAGE.md,
/// "Tokens"). The longest token wins. A byte order mark at the front is no part of the text.
pub fn tokens(alloc: Global, bytes: &[u8]) -> Result<Lexed, Memory>
    requires { length bytes.now < 2 ^ 32 - 1 }
    ensures { IfOk result (λ lexed. IsLexed bytes.now lexed) }
{
    let mut tokens = List::new(alloc);
    let mut position = skip(bytes, start(bytes));
    while let Some(token) = token_at(alloc, bytes, position)? {
        tokens.push(token)?;
        position = skip(bytes, moved(bytes, position, token.to as usize));
    }
    let end = moved(bytes, position, bytes.len()).place;
    let stop = if position.at < bytes.len() {
        Some(position.place)
    } else {
        None
    };
    Ok(Lexed { tokens, stop, end })
}

/// A text has one list of tokens, one stop and one end.
pub fn one_lexing()
    ensures { (bytes : List ℕ) (one other : Lexed) → IsLexed bytes one → IsLexed bytes other → one ≡ other }
{}
