//! White space, comments and places.
ghost use Rattle.std.specs.Prelude.{◌≡◌, ◌+◌, ◌<◌, ◌≤◌, ◌^◌, ◌==◌, false, true, ◌&&◌, length, IfSome, IfNone};
ghost use Rattle.tiql_lex.specs.Lexemes.{behind_blanks, begins_with, is_white as white};
ghost use Rattle.tiql_lex.specs.Places as spec;

use base_kit::Place;

/// What stands behind the white space and comments with which the bytes begin.
pub fn skip_blanks(bytes: &[u8]) -> &[u8]
    ensures rest { result.now ≡ behind_blanks false bytes.now }
    ensures shorter { length result.now ≤ length bytes.now }
{
    let mut rest = bytes;
    while let Some(after) = after_blank(rest) {
        rest = after;
    }
    rest
}

// What stands behind one byte of white space or one comment, where the bytes begin with one.
fn after_blank(bytes: &[u8]) -> Option<&[u8]>
    ensures some { IfSome result (λ after. behind_blanks false after.now ≡ behind_blanks false bytes.now) }
    ensures shorter { IfSome result (λ after. length after.now < length bytes.now) }
    ensures none { IfNone result (behind_blanks false bytes.now ≡ bytes.now) }
{
    let [first, rest @ ..] = bytes else {
        return None;
    };
    if is_white(*first) {
        return Some(rest);
    }
    if opens_comment(*first, rest) {
        return Some(after_comment(rest));
    }
    None
}

// What stands behind the LF that ends the comment in which the bytes begin, or nothing.
fn after_comment(bytes: &[u8]) -> &[u8]
    ensures rest { behind_blanks false result.now ≡ behind_blanks true bytes.now }
    ensures shorter { length result.now ≤ length bytes.now }
{
    let mut rest = bytes;
    while let [byte, after @ ..] = rest {
        rest = after;
        if *byte == b'\n' {
            break;
        }
    }
    rest
}

fn opens_comment(first: u8, rest: &[u8]) -> bool
    ensures { result ≡ (first == 45 && begins_with 45 rest.now) }
{
    first == b'-' && begins_with_dash(rest)
}

fn begins_with_dash(bytes: &[u8]) -> bool
    ensures { result ≡ begins_with 45 bytes.now }
{
    match bytes {
        [first, ..] => *first == b'-',
        [] => false,
    }
}

fn is_white(byte: u8) -> bool
    ensures { result ≡ white byte }
{
    b" \t\r\n".contains(&byte)
}

/// The place behind the bytes, given the place at which they begin. LF alone ends a line, and a column counts bytes.
pub fn behind(place: Place, bytes: &[u8]) -> Place
    requires line { place.line + length bytes.now < 2 ^ 32 }
    requires column { place.column + length bytes.now < 2 ^ 32 }
    ensures place { result ≡ spec.behind place bytes.now }
    ensures line { result.line ≤ place.line + length bytes.now }
    ensures column { 1 ≤ place.column → result.column ≤ place.column + length bytes.now }
{
    let mut place = place;
    for byte in bytes {
        place = next_place(place, *byte);
    }
    place
}

// The place behind the byte.
fn next_place(place: Place, byte: u8) -> Place
    requires line { place.line + 1 < 2 ^ 32 }
    requires column { place.column + 1 < 2 ^ 32 }
    ensures place { result ≡ spec.next_place place byte }
    ensures line { result.line ≤ place.line + 1 }
    ensures column { 1 ≤ place.column → result.column ≤ place.column + 1 }
{
    if byte == b'\n' {
        Place {
            line: place.line + 1,
            column: 1,
        }
    } else {
        Place {
            line: place.line,
            column: place.column + 1,
        }
    }
}

/// How many bytes a byte order mark takes at the front, 3 or 0.
pub fn mark_size(bytes: &[u8]) -> usize
    ensures size { result ≡ spec.mark_size bytes.now }
    ensures inside { result ≤ length bytes.now }
{
    if bytes.starts_with(b"\xef\xbb\xbf") {
        3
    } else {
        0
    }
}
