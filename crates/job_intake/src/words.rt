//! The words after the program's name.

ghost use Rattle.std.specs.Prelude.{◌≡◌, ◌≤◌, length, IfSome, map, option_map, string_bytes, if◌then◌else◌, Some, None};
ghost use Rattle.std.specs.Char.{is_ascii_digit};
ghost use Rattle.std.specs.List.{list_all};
ghost use Rattle.std.specs.Str.Parse.{digits_value};
ghost use Rattle.job_intake.specs.Words as spec;
ghost use Rattle.job_intake.specs.Forms as views;

/// The nodes that are worked where the words name no number.
const DEFAULT_NODES: u32 = 10_000;

/// The most nodes that the words may name.
const MOST_NODES: u32 = 100_000;

/// What is to be done.
#[derive(Clone, Copy, Debug)]
pub enum Command<'a> {
    /// To solve within so many nodes.
    Solve { nodes: u32 },
    /// To check the answer of this name.
    Check { answer: &'a str },
    /// To evaluate the answer of this name.
    Evaluate { answer: &'a str },
}

/// What the words ask: the query's name, the folder of its tables, and what is to be done.
#[derive(Clone, Copy, Debug)]
pub struct Form<'a> {
    pub query: &'a str,
    pub folder: &'a str,
    pub command: Command<'a>,
}

/// What is asked, where the words are `solve QUERY DIR`, `solve QUERY DIR NODES`, `check QUERY DIR ANSWER` or
/// `eval QUERY DIR ANSWER` (docs/ANSWERS.md).
pub fn form_of(words: &[String]) -> Option<Form<'_>>
    ensures { option_map views.form result ≡ spec.form_of (map (λ word. string_bytes word) words.now) }
{
    match words {
        [word, query, folder] => solve_form(
            word.as_str(),
            query.as_str(),
            folder.as_str(),
            Some(DEFAULT_NODES),
        ),
        [word, query, folder, last] => four_words(
            word.as_str(),
            query.as_str(),
            folder.as_str(),
            last.as_str(),
        ),
        _ => None,
    }
}

/// The form of checking, where the first word is `check`, of evaluating, where it is `eval`, or else that of solving.
fn four_words<'a>(word: &str, query: &'a str, folder: &'a str, last: &'a str) -> Option<Form<'a>>
    ensures { option_map views.form result ≡ spec.four_words word.now query.now folder.now last.now }
{
    if word == "check" {
        let command = Command::Check { answer: last };
        Some(Form {
            query,
            folder,
            command,
        })
    } else if word == "eval" {
        let command = Command::Evaluate { answer: last };
        Some(Form {
            query,
            folder,
            command,
        })
    } else {
        solve_form(word, query, folder, nodes_of(last.as_bytes()))
    }
}

/// The form of solving with these nodes, where the first word is `solve`.
fn solve_form<'a>(
    word: &str,
    query: &'a str,
    folder: &'a str,
    nodes: Option<u32>,
) -> Option<Form<'a>>
    ensures { option_map views.form result ≡ spec.solve_form word.now query.now folder.now nodes }
{
    let nodes = nodes?;
    if word == "solve" {
        let command = Command::Solve { nodes };
        Some(Form {
            query,
            folder,
            command,
        })
    } else {
        None
    }
}

/// The number of nodes that a word names.
fn nodes_of(word: &[u8]) -> Option<u32>
    ensures { result ≡ spec.nodes_of word.now }
{
    if word.len() > 6 || !begins_plain(word) {
        return None;
    }
    let count = digits_of(word)?;
    if count <= MOST_NODES {
        Some(count)
    } else {
        None
    }
}

/// Whether there is a first byte, and it is no zero.
fn begins_plain(word: &[u8]) -> bool
    ensures { result ≡ spec.begins_plain word.now }
{
    match word {
        [first, ..] => *first != b'0',
        [] => false,
    }
}

/// The value of a few digits, unless there is something else.
fn digits_of(word: &[u8]) -> Option<u32>
    requires { length word.now ≤ 6 }
    ensures { result ≡ (if list_all is_ascii_digit word.now then Some (digits_value 10 word.now) else None) }
{
    let mut value = 0;
    for byte in word {
        if !byte.is_ascii_digit() {
            return None;
        }
        value = value * 10 + u32::from(*byte - b'0');
    }
    Some(value)
}
