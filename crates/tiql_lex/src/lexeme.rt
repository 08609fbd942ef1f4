//! Finds the first word, number, text in quotes or sign of a text.
ghost use Rattle.std.specs.Prelude.{◌≡◌, ◌+◌, ◌≤◌, false, length};
ghost use Rattle.std.specs.List.{prefix_len};
ghost use Rattle.std.specs.Char.{is_ascii_digit};
ghost use Rattle.base_kit.specs.Names.{continues_name};
ghost use Rattle.tiql_lex.specs.Lexemes.{is_sign as sign, is_pair as pair};
ghost use Rattle.tiql_lex.specs.Scan as scan;

use base_kit::{continues_name, starts_name};

/// How many bytes the first lexeme has, or 0 where none begins. A text in quotes that is not ended goes on to the end.
pub fn lexeme_size(bytes: &[u8]) -> usize
    ensures size { result ≡ scan.lexeme_size bytes.now }
    ensures within { result ≤ length bytes.now }
{
    let [first, rest @ ..] = bytes else {
        return 0;
    };
    if starts_name(*first) {
        return 1 + word_size(rest);
    }
    if first.is_ascii_digit() {
        return 1 + digits_size(rest);
    }
    if *first == b'\'' {
        return 1 + text_size(rest);
    }
    sign_size(*first, rest)
}

// With how many bytes that go on a name the bytes begin.
fn word_size(bytes: &[u8]) -> usize
    ensures size { result ≡ prefix_len continues_name bytes.now }
    ensures within { result ≤ length bytes.now }
{
    let mut size = 0;
    for byte in bytes {
        if !continues_name(*byte) {
            break;
        }
        size += 1;
    }
    size
}

// With how many digits the bytes begin.
fn digits_size(bytes: &[u8]) -> usize
    ensures size { result ≡ prefix_len is_ascii_digit bytes.now }
    ensures within { result ≤ length bytes.now }
{
    let mut size = 0;
    for byte in bytes {
        if !byte.is_ascii_digit() {
            break;
        }
        size += 1;
    }
    size
}

// How many bytes go on a text in quotes, behind the quote that opens it.
fn text_size(bytes: &[u8]) -> usize
    ensures size { result ≡ scan.text_size false bytes.now }
    ensures within { result ≤ length bytes.now }
{
    let mut size = 0;
    let mut ended = false;
    for byte in bytes {
        if *byte == b'\'' {
            ended = !ended;
        } else if ended {
            break;
        }
        size += 1;
    }
    size
}

// How many bytes the sign has that begins with this byte, or 0 where none does.
fn sign_size(first: u8, rest: &[u8]) -> usize
    ensures size { result ≡ scan.sign_size first rest.now }
    ensures within { result ≤ length rest.now + 1 }
{
    if pairs_with(first, rest) {
        2
    } else if is_sign(first) {
        1
    } else {
        0
    }
}

fn pairs_with(first: u8, rest: &[u8]) -> bool
    ensures { result ≡ scan.pairs_with first rest.now }
{
    match rest {
        [second, ..] => is_pair(first, *second),
        [] => false,
    }
}

fn is_pair(first: u8, second: u8) -> bool
    ensures { result ≡ pair first second }
{
    first == b'.' && second == b'.'
        || first == b'<' && (second == b'>' || second == b'=')
        || first == b'>' && second == b'='
}

fn is_sign(byte: u8) -> bool
    ensures { result ≡ sign byte }
{
    b"()[],;.+-*=<>".contains(&byte)
}
