//! Writes single words, each with a space behind it.
ghost use Rattle.std.specs.Prelude.{◌≡◌, ◌++◌, ◌∷◌, [], decimal, unsigned_abs, OnOk};
ghost use Rattle.tiql_lex.specs.Kinds.{doubled, quoted};
ghost use Rattle.tiql_tree.specs.Grammar.{cmp_text as text_of_cmp, ref_words};
ghost use Rattle.tiql_tree.specs.Printed.{written, ref_text};

use crate::condition::TreeCmp;
use crate::expression::TreeRef;
use base_kit::Memory;
use std::alloc::Global;

/// Appends the bytes.
pub fn put(out: &mut Vec<u8>, bytes: &[u8]) -> Result<(), Memory>
    ensures { OnOk result (out.new.items ≡ out.old.items ++ bytes.now) }
{
    Ok(out.extend_from_slice(bytes)?)
}

/// Appends a name.
pub fn put_name(out: &mut Vec<u8>, name: &str) -> Result<(), Memory>
    ensures { OnOk result (out.new.items ≡ out.old.items ++ (name.now ++ 32 ∷ [])) }
{
    put(out, name.as_bytes())?;
    put(out, b" ")
}

/// Appends the digits of a number's size.
pub fn put_number(alloc: Global, out: &mut Vec<u8>, number: i64) -> Result<(), Memory>
    ensures { OnOk result (out.new.items ≡ out.old.items ++ (decimal (unsigned_abs number) ++ 32 ∷ [])) }
{
    let size = number.unsigned_abs();
    put(out, format!(in alloc; "{size} ")?.as_bytes())
}

/// Appends a text in quotes.
pub fn put_text(out: &mut Vec<u8>, value: &str) -> Result<(), Memory>
    ensures { OnOk result (out.new.items ≡ out.old.items ++ (quoted value.now ++ 32 ∷ [])) }
{
    put(out, b"'")?;
    put_doubled(out, value.as_bytes())?;
    put(out, b"' ")
}

// Appends a value, with two quotes for one.
fn put_doubled(out: &mut Vec<u8>, value: &[u8]) -> Result<(), Memory>
    ensures { OnOk result (out.new.items ≡ out.old.items ++ doubled value.now) }
{
    for byte in value {
        put_byte(out, *byte)?;
    }
    Ok(())
}

// Appends a byte of a value.
fn put_byte(out: &mut Vec<u8>, byte: u8) -> Result<(), Memory>
    ensures { OnOk result (out.new.items ≡ out.old.items ++ doubled (byte ∷ [])) }
{
    if byte == b'\'' {
        return put(out, b"''");
    }
    Ok(out.push(byte)?)
}

/// Appends a column.
#[tactic(auto, unfolding(crate::specs::Printed::written, crate::specs::Grammar::ref_words))]
pub fn put_ref(out: &mut Vec<u8>, column: &TreeRef) -> Result<(), Memory>
    ensures { OnOk result (out.new.items ≡ out.old.items ++ written (ref_words (ref_text column.now))) }
{
    if let Some(relation) = &column.relation {
        put_name(out, relation.as_str())?;
        put(out, b". ")?;
    }
    put_name(out, column.column.as_str())
}

/// The sign of a comparison, with a space behind it.
pub fn cmp_text(cmp: TreeCmp) -> &'static [u8]
    ensures { result.now ≡ text_of_cmp cmp ++ 32 ∷ [] }
{
    match cmp {
        TreeCmp::Eq => b"= ",
        TreeCmp::Ne => b"<> ",
        TreeCmp::Lt => b"< ",
        TreeCmp::Le => b"<= ",
        TreeCmp::Gt => b"> ",
        TreeCmp::Ge => b">= ",
    }
}
