//! Parses the text of a query.
ghost use Rattle.std.specs.Prelude.{◌≡◌, ◌≢◌, ◌-◌, ◌^◌, ◌<◌, ◌≤◌, length, map, All, IfOk};
ghost use Rattle.base_kit.specs.declared.place.Place.{Place};
ghost use Rattle.tiql_tree.specs.declared.tree.Tree.{Tree};
ghost use Rattle.tiql_tree.specs.Spelled.{words_of as words_spelled, places_of, Spelled, IsStop};
ghost use Rattle.tiql_read.specs.Steps.{word_of};
ghost use Rattle.tiql_read.specs.Stops.{stop_place, IsWithin};

use crate::whole::query;
use crate::word::{Seen, Stop};
use base_kit::{List, Memory, Place};
use std::alloc::{AllocError, Global};
use thiserror::Error;
use tiql_lex::{Lexed, Token, tokens};
use tiql_tree::Tree;

/// Why a text was not parsed as a query.
#[derive(Clone, Copy, Debug, PartialEq, Eq, Error)]
pub enum ReadFault {
    /// A syntax error (docs/LANGUAGE.md, "Grammar"); the place is that of the first token with which the tokens so far begin no
    /// query.
    #[error("not a query, from line {} and column {} on", .0.line, .0.column)]
    Syntax(Place),
    /// Out of memory.
    #[error("out of memory")]
    Memory,
}

impl From<Memory> for ReadFault {
    ghost use Rattle.std.specs.Prelude.{◌≡◌};
    ghost use Rattle.tiql_read.specs.declared.reader.ReadFault.{ReadFault};

    ghost from_gives = { λ _ fault. fault ≡ ReadFault.Memory };

    fn from(_fault: Memory) -> ReadFault {
        ReadFault::Memory
    }
}

// The words of the tokens.
fn words_of(alloc: Global, bytes: &[u8], tokens: &[Token]) -> Result<List<Seen>, Memory>
    requires { All (IsWithin bytes.now) tokens.now }
    ensures words { IfOk result (λ words. map word_of words ≡ words_spelled bytes.now tokens.now) }
    ensures places { IfOk result (λ words. map (λ word. word.place) words ≡ places_of tokens.now) }
{
    let mut words = List::new(alloc);
    for token in tokens {
        words.push(Seen {
            kind: token.kind,
            text: List::from_slice(alloc, &bytes[token.from as usize..token.to as usize])?,
            place: token.place,
        })?;
    }
    Ok(words)
}

// The place of the token from which on so many are left, or else where the tokens stop.
fn place_of(lexed: &Lexed, left: usize) -> Place
    requires { left ≤ length lexed.now.tokens }
    ensures { result ≡ stop_place lexed.now left }
{
    if left == 0 {
        return lexed.stop.unwrap_or(lexed.end);
    }
    let tokens = lexed.tokens.as_slice();
    tokens[tokens.len() - left].place
}

/// Parses the text of a query, of fewer than 2^32 - 1 bytes (docs/LANGUAGE.md, "Grammar").
pub fn read_query(alloc: Global, bytes: &[u8]) -> Result<Tree, ReadFault>
    requires { length bytes.now < 2 ^ 32 - 1 }
    ensures tree { IfOk result (λ tree. Spelled bytes.now tree) }
    ensures only { (tree : Tree) → Spelled bytes.now tree → result ≢ Err ReadFault.Memory → result ≡ Ok tree }
    ensures stop { (place : Place) → result ≡ Err (ReadFault.Syntax place) → IsStop bytes.now place }
{
    let lexed = tokens(alloc, bytes)?;
    let words = words_of(alloc, bytes, lexed.tokens.as_slice())?;
    match query(alloc, words.as_slice()) {
        Ok(tree) => match lexed.stop {
            None => Ok(tree),
            Some(place) => Err(ReadFault::Syntax(place)),
        },
        Err(Stop::Wrong(left)) => Err(ReadFault::Syntax(place_of(&lexed, left))),
        Err(Stop::Memory) => Err(ReadFault::Memory),
    }
}
