//! Positions in a text, and the token that begins at one.
ghost use Rattle.std.specs.Prelude.{◌≡◌, ◌^◌, ◌<◌, ◌≤◌, ◌-◌, ◌↔◌, true, false, length, IfOk, IfSome, IfNone, IsTrue};
ghost use Rattle.std.specs.Str.{IsUtf8};
ghost use Rattle.tiql_lex.specs.declared.token.Token.{Token};
ghost use Rattle.tiql_lex.specs.Kinds as kinds;
ghost use Rattle.tiql_lex.specs.Lexed.{Stands, Skips};
ghost use Rattle.tiql_lex.specs.Lexemes.{is_lexeme};
ghost use Rattle.tiql_lex.specs.Places as places;
ghost use Rattle.tiql_lex.specs.Scan.{IsPosition};

use crate::blank::{behind, mark_size, skip_blanks};
use crate::lexeme::lexeme_size;
use crate::token::{Token, TokenKind};
use crate::value::{number_value, text_value};
use base_kit::{MOST_NAME_BYTES, MOST_TEXT_BYTES, Memory, Place, is_keyword, starts_name};
use std::alloc::Global;

/// A byte of a text, by its number and its place.
#[derive(Clone, Copy)]
pub struct Position {
    pub at: usize,
    pub place: Place,
}

/// The first byte of the text.
pub fn start(bytes: &[u8]) -> Position
    ensures position { IsPosition bytes.now result }
    ensures at { result.at ≡ places.mark_size bytes.now }
{
    Position {
        at: mark_size(bytes),
        place: Place { line: 1, column: 1 },
    }
}

/// The position behind the white space and comments.
pub fn skip(bytes: &[u8], from: Position) -> Position
    requires fits { length bytes.now < 2 ^ 32 - 1 }
    requires position { IsPosition bytes.now from }
    ensures position { IsPosition bytes.now result }
    ensures skips { Skips bytes.now from.at result.at }
{
    let rest = skip_blanks(&bytes[from.at..]);
    moved(bytes, from, bytes.len() - rest.len())
}

/// The position of a byte that does not stand before this position.
pub fn moved(bytes: &[u8], from: Position, at: usize) -> Position
    requires fits { length bytes.now < 2 ^ 32 - 1 }
    requires position { IsPosition bytes.now from }
    requires order { from.at ≤ at }
    requires inside { at ≤ length bytes.now }
    ensures position { IsPosition bytes.now result }
    ensures at { result.at ≡ at }
{
    Position {
        at,
        place: behind(from.place, &bytes[from.at..at]),
    }
}

/// The token that begins at the position.
pub fn token_at(alloc: Global, bytes: &[u8], from: Position) -> Result<Option<Token>, Memory>
    requires fits { length bytes.now < 2 ^ 32 - 1 }
    requires position { IsPosition bytes.now from }
    ensures some { IfOk result (λ found. IfSome found (λ token. Stands bytes.now from.at token)) }
    ensures none { IfOk result (λ found. IfNone found ((token : Token) → Stands bytes.now from.at token → ⊥)) }
{
    let size = lexeme_size(&bytes[from.at..]);
    if size == 0 {
        return Ok(None);
    }
    let to = from.at + size;
    let lexeme = &bytes[from.at..to];
    let kind = kind_of(lexeme);
    if !fits(alloc, kind, lexeme)? {
        return Ok(None);
    }
    Ok(Some(Token {
        kind,
        place: from.place,
        from: from.at as u32,
        to: to as u32,
    }))
}

// The kind of a lexeme, by its first byte.
fn kind_of(lexeme: &[u8]) -> TokenKind
    ensures { result ≡ kinds.kind_of lexeme.now }
{
    let [first, ..] = lexeme else {
        return TokenKind::Sign;
    };
    if starts_name(*first) {
        return if is_keyword(lexeme) {
            TokenKind::Keyword
        } else {
            TokenKind::Name
        };
    }
    if first.is_ascii_digit() {
        TokenKind::Number
    } else if *first == b'\'' {
        TokenKind::Text
    } else {
        TokenKind::Sign
    }
}

// Whether a lexeme has a size that its kind allows, and a text in quotes is ended.
fn fits(alloc: Global, kind: TokenKind, lexeme: &[u8]) -> Result<bool, Memory>
    requires lexeme { is_lexeme lexeme.now ≡ true }
    requires kind { kind ≡ kinds.kind_of lexeme.now }
    ensures yes { IfOk result (λ yes. yes ≡ true → kinds.Fits kind lexeme.now) }
    ensures no { IfOk result (λ yes. yes ≡ false → kinds.Fits kind lexeme.now → ⊥) }
{
    match kind {
        TokenKind::Name => Ok(lexeme.len() <= MOST_NAME_BYTES),
        TokenKind::Keyword => Ok(true),
        TokenKind::Number => Ok(number_value(lexeme).is_some()),
        TokenKind::Text => is_text(alloc, lexeme),
        TokenKind::Sign => Ok(true),
    }
}

// Whether a lexeme is a text in quotes, of UTF-8 and at most 1,000 bytes.
fn is_text(alloc: Global, lexeme: &[u8]) -> Result<bool, Memory>
    ensures yes { IfOk result (λ yes. yes ≡ true → kinds.IsText lexeme.now) }
    ensures no { IfOk result (λ yes. yes ≡ false → kinds.IsText lexeme.now → ⊥) }
{
    match text_value(alloc, lexeme)? {
        Some(value) => Ok(is_value(&value)),
        None => Ok(false),
    }
}

fn is_value(value: &[u8]) -> bool
    ensures { IsTrue result ↔ (IsUtf8 value.now × (length value.now ≤ 1000)) }
{
    value.len() <= MOST_TEXT_BYTES && str::from_utf8(value).is_ok()
}
