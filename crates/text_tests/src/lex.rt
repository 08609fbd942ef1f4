//! Tokens, their places and values.

use base_kit::{Duplicate, Place};
use std::alloc::Global;
use std::process::Abort;
use std::test::Fail;
use tiql_lex::{Lexed, TokenKind, number_value, text_value, tokens};

fn assert_place(rt: &impl Abort, place: Place, line: u32, column: u32) {
    assert_eq!(rt; place.line, line);
    assert_eq!(rt; place.column, column);
}

fn assert_token(rt: &impl Abort, lexed: &Lexed, number: usize, kind: TokenKind, span: (u32, u32)) {
    let Some(token) = lexed.tokens.as_slice().get(number) else {
        assert!(rt; false);
        return;
    };
    assert!(rt; token.kind == kind);
    assert_eq!(rt; (token.from, token.to), span);
}

fn assert_stop(
    rt: &impl Abort,
    alloc: Global,
    text: &[u8],
    count: usize,
    place: (u32, u32),
) -> Result<(), Fail> {
    assert!(rt; text.len() < 2000);
    let lexed = tokens(alloc, text)?;
    assert_eq!(rt; lexed.tokens.len(), count);
    let Some(stop) = lexed.stop else {
        assert!(rt; false);
        return Ok(());
    };
    assert_place(rt, stop, place.0, place.1);
    Ok(())
}

#[test]
fn each_kind_has_its_span(rt: HostRuntime) -> Result<(), Fail> {
    let lexed = tokens(rt.alloc(), b"\xef\xbb\xbfTABLE t9--\r x\n1AND'it''s'<=..")?;
    assert_eq!(rt; lexed.tokens.len(), 7);
    assert_token(&rt, &lexed, 0, TokenKind::Keyword, (3, 8));
    assert_token(&rt, &lexed, 1, TokenKind::Name, (9, 11));
    assert_token(&rt, &lexed, 2, TokenKind::Number, (17, 18));
    assert_token(&rt, &lexed, 3, TokenKind::Keyword, (18, 21));
    assert_token(&rt, &lexed, 4, TokenKind::Text, (21, 28));
    assert_token(&rt, &lexed, 5, TokenKind::Sign, (28, 30));
    assert_token(&rt, &lexed, 6, TokenKind::Sign, (30, 32));
    assert!(rt; lexed.stop.is_none());
    assert_place(&rt, lexed.end, 2, 16);
    assert_eq!(rt; lexed.copy(rt.alloc())?.tokens.len(), 7);
    Ok(())
}

#[test]
fn a_place_counts_bytes(rt: HostRuntime) -> Result<(), Fail> {
    let lexed = tokens(rt.alloc(), b"'\xc3\xa4' = 1\r\n  x\n")?;
    assert_eq!(rt; lexed.tokens.len(), 4);
    let found = lexed.tokens.as_slice();
    assert_place(&rt, found[1].place, 1, 6);
    assert_place(&rt, found[3].place, 2, 3);
    assert_place(&rt, lexed.end, 3, 1);
    Ok(())
}

#[test]
fn it_stops_where_no_token_begins(rt: HostRuntime) -> Result<(), Fail> {
    assert_stop(&rt, rt.alloc(), b"FIND # ;", 1, (1, 6))?;
    assert_stop(&rt, rt.alloc(), b"a =\n'x = b; FIND;", 2, (2, 1))?;
    assert_stop(&rt, rt.alloc(), b"'a''b", 0, (1, 1))?;
    assert_stop(&rt, rt.alloc(), b"a 'x\xff'", 1, (1, 3))?;
    assert_stop(&rt, rt.alloc(), b"a 1000000000000001", 1, (1, 3))?;
    assert_stop(
        &rt,
        rt.alloc(),
        b"( nnnnnnnnnnnnnnnnnnnnnnnnnnnnnnnnnnnnnnnnnnnnnnnnnnnnnnnnnnnnnnnnn",
        1,
        (1, 3),
    )
}

#[test]
fn a_value_is_that_of_its_token(rt: HostRuntime) -> Result<(), Fail> {
    assert!(rt; number_value(b"0001000000000000000") == Some(1_000_000_000_000_000));
    assert!(rt; number_value(b"1000000000000001").is_none());
    let Some(value) = text_value(rt.alloc(), b"'it''s'")? else {
        assert!(rt; false);
        return Ok(());
    };
    assert!(rt; value.as_slice() == b"it's".as_slice());
    assert!(rt; text_value(rt.alloc(), b"'a''")?.is_none());
    Ok(())
}
