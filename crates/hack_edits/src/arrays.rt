//! Elements cut out of an array of a piece. `toml` decides which text is an array, and where an
//! element ends.

ghost use Rattle.std.specs.Prelude.{true, false, ◌≡◌, ◌≤◌, ◌<◌, ◌++◌, ◌==◌, ℕ, List, length};
ghost use Rattle.std.specs.Prelude.{IfOk, IfSome, string_bytes};
ghost use Rattle.toml.specs.View.{array_view, table_view};
ghost use Rattle.hack_manifest.specs.LineRuns.{IsShortest};
ghost use Rattle.hack_manifest.specs.Manifest.{list_of_items};
ghost use Rattle.hack_manifest.specs.PieceFronts.{IsFrontTo};
ghost use Rattle.hack_edits.specs.Arrays.{EndsBefore, IsArray, IsCutInside, IsLeftInside, but_last};
ghost use Rattle.hack_edits.specs.Arrays.{has_one, is_element};
ghost use Rattle.hack_edits.specs.InternalArrays.{IsCommaBehind};

use crate::tables::tree_of;
use hack_manifest::lookup::value_at;
use hack_manifest::runs::stands_alone;
use std::alloc::{AllocError, Global};
use toml::value::Array;
use toml::{Table, Value};
use toml_parser::text::skip_blank;
use toml_parser::{ParseError, quoted, starts_string};

/// The piece without these elements of its array, if its brackets and they are found.
pub fn without_elements(
    alloc: Global,
    piece: &str,
    goes: &[bool],
) -> Result<Option<String>, AllocError>
    ensures { IfOk result (λ o. IfSome o (λ s. IsCutInside piece.now (string_bytes s))) }
{
    let Some((n, m)) = brackets(alloc, piece)? else {
        return Ok(None);
    };
    let bytes = piece.as_bytes();
    let Some(kept) = left_inside(alloc, &bytes[n..m - 1], goes)? else {
        return Ok(None);
    };
    let mut new = Vec::new(alloc);
    new.extend_from_slice(&bytes[..n])?;
    new.extend_from_slice(kept.as_slice())?;
    new.extend_from_slice(&bytes[m - 1..])?;
    match String::from_utf8(new) {
        Ok(text) => Ok(Some(text)),
        Err(_) => Ok(None),
    }
}

/// Where the array of a piece begins, behind its bracket, and where it ends, behind the other one.
pub fn brackets(alloc: Global, piece: &str) -> Result<Option<(usize, usize)>, AllocError>
    ensures { IfOk result (λ o. IfSome o (λ at. IsArray piece.now at.0 at.1)) }
{
    let Some(n) = first_front(alloc, piece, b'[', "]")? else {
        return Ok(None);
    };
    let Some(m) = first_front(alloc, piece, b']', "")? else {
        return Ok(None);
    };
    if n < m { Ok(Some((n, m))) } else { Ok(None) }
}

/// Returns the length of the shortest prefix that ends in the byte, and parses alone when followed
/// by `more`.
fn first_front(
    alloc: Global,
    piece: &str,
    byte: u8,
    more: &str,
) -> Result<Option<usize>, AllocError>
    requires { byte < 128 }
    ensures { IfOk result (λ o. IfSome o (IsShortest (IsFrontTo byte more.now piece.now))) }
{
    for i in 0..piece.len() {
        if is_front(alloc, piece, i + 1, byte, more)? {
            return Ok(Some(i + 1));
        }
    }
    Ok(None)
}

/// Returns whether the first `n` bytes end in the byte, and parse alone when followed by `more`.
fn is_front(alloc: Global, piece: &str, n: usize, byte: u8, more: &str) -> Result<bool, AllocError>
    requires within { n ≤ length piece.now }
    requires ascii { byte < 128 }
    ensures yes { IfOk result (λ b. b ≡ true → IsFrontTo byte more.now piece.now n) }
    ensures no { IfOk result (λ b. b ≡ false → IsFrontTo byte more.now piece.now n → ⊥) }
{
    if n == 0 || piece.as_bytes()[n - 1] != byte {
        return Ok(false);
    }
    let mut front = String::from_str(alloc, &piece[..n])?;
    front.push_str(more)?;
    stands_alone(alloc, front.as_str())
}

/// Returns what is left between an array's brackets without these elements, if its elements are
/// found: the blanks and comments before an element go with it, and what follows up to its comma;
/// without a comma, the nearest kept comma before it.
fn left_inside(alloc: Global, inside: &[u8], goes: &[bool]) -> Result<Option<Vec<u8>>, AllocError>
    ensures { IfOk result (λ o. IfSome o (λ v. IsLeftInside inside.now v.items)) }
{
    let mut kept = Vec::new(alloc);
    let mut from = 0;
    for here in goes {
        match comma_behind(alloc, inside, from)? {
            Some(comma) => {
                if !*here {
                    kept.extend_from_slice(&inside[from..comma + 1])?;
                }
                from = comma + 1;
            }
            None => {
                if *here {
                    return without_last(alloc, kept, &inside[from..]);
                }
            }
        }
    }
    kept.extend_from_slice(&inside[from..])?;
    Ok(Some(kept))
}

/// Returns the kept elements without their last comma, and what follows the last element, which no
/// comma follows, if this is a text.
fn without_last(alloc: Global, kept: Vec<u8>, rest: &[u8]) -> Result<Option<Vec<u8>>, AllocError>
    ensures { IfOk result (λ o. IfSome o (λ v. (after : List ℕ) × EndsBefore rest.now after
        × (v.items ≡ but_last kept.items ++ after))) }
{
    let Ok(text) = std::str::from_utf8(rest) else {
        return Ok(None);
    };
    let Some(after) = behind_last(alloc, text)? else {
        return Ok(None);
    };
    let mut new = kept;
    new.pop();
    new.extend_from_slice(after.as_bytes())?;
    Ok(Some(new))
}

/// Returns what follows the text at the start, if there is one and only blanks and comments follow.
fn behind_last<'a>(alloc: Global, rest: &'a str) -> Result<Option<&'a str>, AllocError>
    ensures { IfOk result (λ o. IfSome o (λ after. EndsBefore rest.now after.now)) }
{
    let start = skip_blank(rest, true);
    if !starts_string(start) {
        return Ok(None);
    }
    match quoted(alloc, start) {
        Ok((_, after)) => {
            if skip_blank(after, true).is_empty() {
                Ok(Some(after))
            } else {
                Ok(None)
            }
        }
        Err(ParseError::OutOfMemory) => Err(AllocError),
        Err(ParseError::At(_, _, _)) => Ok(None),
    }
}

/// Returns where the comma after an element is: the first before which `toml` reads the element.
pub fn comma_behind(alloc: Global, inside: &[u8], from: usize) -> Result<Option<usize>, AllocError>
    ensures { IfOk result (λ o. IfSome o (λ at. IsCommaBehind inside.now from at)) }
{
    for i in from..inside.len() {
        if inside[i] == b',' {
            if let Ok(element) = std::str::from_utf8(&inside[from..i]) {
                if is_element(alloc, element)? {
                    return Ok(Some(i));
                }
            }
        }
    }
    Ok(None)
}

/// Whether `toml` reads the text between brackets as an array of one element.
fn is_element(alloc: Global, inside: &str) -> Result<bool, AllocError>
    ensures { IfOk result (λ b. b ≡ is_element inside.now) }
{
    let mut text = String::from_str(alloc, "a=[")?;
    text.push_str(inside)?;
    text.push_str("]")?;
    match tree_of(alloc, text.as_str())? {
        Some(tree) => Ok(has_one(&tree)),
        None => Ok(false),
    }
}

/// Whether the array of a tree has one element.
fn has_one(tree: &Table) -> bool
    ensures { result ≡ has_one (table_view tree.now) }
{
    match value_at(tree, "a") {
        Some(value) => match value {
            Value::Array(items) => is_single(items),
            _ => false,
        },
        None => false,
    }
}

/// Whether an array has one element.
fn is_single(items: &Array) -> bool
    ensures { result ≡ (length (list_of_items (array_view items.now)) == 1) }
{
    items.as_slice().len() == 1
}

/// Returns the length of a text at the start, with the space and the comments before it; 0 where
/// there is no text.
pub fn text_len(alloc: Global, element: &str) -> Result<usize, AllocError>
    ensures { IfOk result (λ n. n ≤ length element.now) }
{
    let start = skip_blank(element, true);
    if !starts_string(start) {
        return Ok(0);
    }
    match quoted(alloc, start) {
        Ok((_, rest)) => Ok(element.len() - rest.len()),
        Err(ParseError::OutOfMemory) => Err(AllocError),
        Err(ParseError::At(_, _, _)) => Ok(0),
    }
}
