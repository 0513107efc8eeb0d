//! Lists of names in one argument: how the values of options that take several names are split.

ghost use Rattle.std.specs.Prelude.{◌≡◌, ◌↔◌, IsTrue, IfOk, map, string_bytes};
ghost use Rattle.hack_base.specs.Lists.{HasSeparator, is_list, group_names, list_names};
ghost use Rattle.hack_base.specs.Lists.{separator_of, without_quotes};
ghost use Rattle.hack_base.specs.Lists.{is_quoted as quoted, is_between as between};

use std::alloc::{AllocError, Global};

/// Whether a text has a comma or a space, so that it can be a list of two names or more.
pub fn has_separator(text: &str) -> bool
    ensures separator { IsTrue result ↔ HasSeparator text.now }
    ensures test { result ≡ is_list text.now }
{
    let bytes = text.as_bytes();
    bytes.contains(&b',') || bytes.contains(&b' ')
}

fn separator(text: &str) -> char
    ensures { result ≡ separator_of text.now }
{
    if text.as_bytes().contains(&b',') {
        ','
    } else {
        ' '
    }
}

/// The names of a group. Quotes stay, and so do empty names: the empty text is one empty name.
pub fn split_group(alloc: Global, text: &str) -> Result<Vec<String>, AllocError>
    ensures { IfOk result (λ names. map string_bytes names.items ≡ group_names text.now) }
{
    let mut names = Vec::new(alloc);
    for name in text.split(separator(text)) {
        names.push(String::from_str(alloc, name)?)?;
    }
    Ok(names)
}

fn is_between(text: &str, quote: u8) -> bool
    ensures { result ≡ between quote text.now }
{
    let bytes = text.as_bytes();
    bytes.len() > 1 && bytes[0] == quote && bytes[bytes.len() - 1] == quote
}

fn is_quoted(text: &str) -> bool
    ensures { result ≡ quoted text.now }
{
    is_between(text, b'\'') || is_between(text, b'"')
}

/// The text without the pair of equal quotes around it, where there is one.
pub fn unquoted(text: &str) -> &str
    ensures { result.now ≡ without_quotes text.now }
{
    if is_quoted(text) {
        &text[1..text.len() - 1]
    } else {
        text
    }
}

/// The names of a list. One pair of equal quotes around the text is dropped, and so are empty
/// names.
pub fn split_names(alloc: Global, text: &str) -> Result<Vec<String>, AllocError>
    ensures { IfOk result (λ names. map string_bytes names.items ≡ list_names text.now) }
{
    let mut names = Vec::new(alloc);
    let inner = unquoted(text);
    for name in inner.split(separator(inner)) {
        if !name.is_empty() {
            names.push(String::from_str(alloc, name)?)?;
        }
    }
    Ok(names)
}
