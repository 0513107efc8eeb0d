//! The key path of a piece: that of its header, or of the last header and its own key.

ghost use Rattle.std.specs.Prelude.{◌≡◌, ◌≤◌, ◌++◌, [], ◌∷◌, length, take, is_some};
ghost use Rattle.std.specs.Prelude.{true, IfOk, OnOk, IfSome, IfNone};
ghost use Rattle.toml.specs.Parse.{skip_bom};
ghost use Rattle.toml.specs.View.{view, table_view};
ghost use Rattle.hack_base.specs.Names.{names_of};
ghost use Rattle.hack_manifest.specs.LineRuns.{stands, chain, chain_of_data, chain_at};
ghost use Rattle.hack_manifest.specs.PieceFronts.{IsFrontTo};
ghost use Rattle.hack_manifest.specs.Paths.{is_header, IsOwnKey, IsPathOfPiece};

use crate::plain::bare_name;
use hack_base::copies::push_copies;
use std::alloc::{AllocError, Global};
use toml::{Table, Value};
use toml_parser::text::{byte_at, first, skip_blank};
use toml_parser::{Key, dotted_key};

/// Appends the names along a value.
#[cycle(chain)]
fn push_chain_of(value: &Value, names: &mut Vec<String>) -> Result<(), AllocError>
    ensures { OnOk result
        (names_of names.new.items ≡ names_of names.old.items ++ chain_of_data (view value.now)) }
{
    match value {
        Value::Table(table) => push_chain(table, names),
        _ => Ok(()),
    }
}

/// Appends the names along a table.
#[cycle(chain)]
fn push_chain(table: &Table, names: &mut Vec<String>) -> Result<(), AllocError>
    ensures { OnOk result
        (names_of names.new.items ≡ names_of names.old.items ++ chain (table_view table.now)) }
{
    match table.iter().next() {
        Some((key, value)) => {
            names.push(key.clone()?)?;
            push_chain_of(value, names)
        }
        None => Ok(()),
    }
}

/// The text without a byte order mark.
pub fn skip_mark(text: &str) -> &str
    ensures { result.now ≡ skip_bom text.now }
{
    if first(text) == 0xEF && byte_at(text, 1) == 0xBB && byte_at(text, 2) == 0xBF {
        &text[3..]
    } else {
        text
    }
}

/// Whether a piece is a header.
pub fn starts_table(piece: &str) -> bool
    ensures { result ≡ is_header piece.now }
{
    first(skip_blank(skip_mark(piece), true)) == b'['
}

/// The names in the tree of a text that parses alone.
fn names_in(alloc: Global, text: &str) -> Result<Option<Vec<String>>, AllocError>
    ensures stands { IfOk result (λ o. is_some o ≡ stands text.now) }
    ensures names { IfOk result (λ o. IfSome o (λ names.
        names_of names.items ≡ chain_at text.now)) }
{
    match toml::table_from_str(alloc, text) {
        Ok(table) => {
            if table.is_empty() {
                return Ok(None);
            }
            let mut names = Vec::new(alloc);
            push_chain(&table, &mut names)?;
            Ok(Some(names))
        }
        Err(e) => {
            if e.is_memory() {
                Err(AllocError)
            } else {
                Ok(None)
            }
        }
    }
}

/// The names of a document that is a key and `=0`, for which `toml` isn't needed.
fn key_names(alloc: Global, text: &str) -> Result<Option<Vec<String>>, AllocError>
    ensures { IfOk result (λ o. IfSome o (λ names.
        (stands text.now ≡ true) × (names_of names.items ≡ chain_at text.now))) }
{
    match dotted_key(alloc, skip_blank(skip_mark(text), true)) {
        Ok((key, rest)) => {
            if rest != "=0" {
                return Ok(None);
            }
            let Key { path, last } = key;
            let mut names = path;
            names.push(last)?;
            Ok(Some(names))
        }
        Err(_) => Ok(None),
    }
}

/// The names of the first n bytes, if these end in `=` and parse alone when followed by `0`.
fn front_names(alloc: Global, piece: &str, n: usize) -> Result<Option<Vec<String>>, AllocError>
    requires { n ≤ length piece.now }
    ensures front { IfOk result (λ o. IfSome o (λ names. IsFrontTo 61 (48 ∷ []) piece.now n
        × (names_of names.items ≡ chain_at (take n piece.now ++ 48 ∷ [])))) }
    ensures none { IfOk result (λ o. IfNone o (IsFrontTo 61 (48 ∷ []) piece.now n → ⊥)) }
{
    if n == 0 || piece.as_bytes()[n - 1] != b'=' {
        return Ok(None);
    }
    if let Some(name) = bare_name(skip_blank(skip_mark(&piece[..n]), true)) {
        let mut names = Vec::new(alloc);
        names.push(String::from_str(alloc, name)?)?;
        return Ok(Some(names));
    }
    let mut front = String::with_capacity(alloc, n + 1)?;
    front.push_str(&piece[..n])?;
    front.push_str("0")?;
    match key_names(alloc, front.as_str())? {
        Some(names) => Ok(Some(names)),
        None => names_in(alloc, front.as_str()),
    }
}

/// The own key of a piece: the names before its first `=`.
fn own_key(alloc: Global, piece: &str) -> Result<Vec<String>, AllocError>
    ensures { IfOk result (λ names. IsOwnKey piece.now (names_of names.items)) }
{
    for i in 0..piece.len() {
        if let Some(names) = front_names(alloc, piece, i + 1)? {
            return Ok(names);
        }
    }
    Ok(Vec::new(alloc))
}

/// The path of a piece after a header.
pub fn path_of(alloc: Global, header: &[String], piece: &str) -> Result<Vec<String>, AllocError>
    ensures { IfOk result (λ path.
        IsPathOfPiece (names_of header.now) piece.now (names_of path.items)) }
{
    if starts_table(piece) {
        return match names_in(alloc, piece)? {
            Some(names) => Ok(names),
            None => Ok(Vec::new(alloc)),
        };
    }
    let mut path = Vec::new(alloc);
    push_copies(&mut path, header)?;
    let mut own = own_key(alloc, piece)?;
    path.append(&mut own)?;
    Ok(path)
}
