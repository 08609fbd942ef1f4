//! The reserved words of the language.
ghost use Rattle.std.specs.Prelude.{◌≡◌, nat_eq};
ghost use Rattle.std.specs.List.{list_any};
ghost use Rattle.std.specs.Cmp.Lexicographic.{pointwise};
ghost use Rattle.base_kit.specs.Keywords as spec;

// The reserved words, in capitals as they are written. None of them is a name (docs/LANGUAGE.md).
const KEYWORDS: [&[u8]; 36] = [
    b"TABLE",
    b"INT",
    b"TEXT",
    b"KEY",
    b"HYPO",
    b"FROM",
    b"SET",
    b"IN",
    b"WHERE",
    b"DROP",
    b"VIEW",
    b"AS",
    b"SELECT",
    b"DISTINCT",
    b"UNION",
    b"ALL",
    b"GROUP",
    b"BY",
    b"REQUIRE",
    b"HAVE",
    b"SOME",
    b"NONE",
    b"MINIMIZE",
    b"MAXIMIZE",
    b"FIND",
    b"SUM",
    b"COUNT",
    b"MIN",
    b"MAX",
    b"ABS",
    b"AND",
    b"OR",
    b"NOT",
    b"EXCEPT",
    b"PREFER",
    b"COST",
];

/// Whether a text is a reserved word (docs/LANGUAGE.md); case counts.
#[tactic(auto, unfolding(crate::specs::Keywords::is_keyword))]
pub fn is_keyword(text: &[u8]) -> bool
    ensures { result ≡ spec.is_keyword text.now }
{
    is_among(&KEYWORDS, text)
}

fn is_among(words: &[&[u8]], text: &[u8]) -> bool
    ensures { result ≡ list_any (λ word. pointwise nat_eq word.now text.now) words.now }
{
    words.iter().any(|word| *word == text)
}
