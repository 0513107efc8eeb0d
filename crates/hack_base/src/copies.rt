//! Copies of texts, and texts that are lent.

ghost use Rattle.std.specs.Prelude.{◌≡◌, ◌++◌, IfOk, OnErr, OnOk, SomeIndex, map, option_map, take};
ghost use Rattle.hack_base.specs.Names.{names_of, optional_text, optional_text_ref};

use std::alloc::{AllocError, Global};
use std::convert::AsStr;

/// Copies of texts, in order.
pub fn copies<T: AsStr>(alloc: Global, texts: &[T]) -> Result<Vec<String>, AllocError>
    ensures { IfOk result (λ copies. names_of copies.items ≡ map T.text texts.now) }
{
    let mut copies = Vec::with_capacity(alloc, texts.len())?;
    for text in texts {
        copies.push(String::from_str(alloc, text.as_str())?)?;
    }
    Ok(copies)
}

/// Appends copies of texts; only of the first ones where memory is refused.
pub fn push_copies(texts: &mut Vec<String>, more: &[String]) -> Result<(), AllocError>
    ensures all { OnOk result (names_of texts.new.items
        ≡ names_of texts.old.items ++ names_of more.now) }
    ensures some { OnErr result (SomeIndex more.now (λ i. names_of texts.new.items
        ≡ names_of texts.old.items ++ names_of (take i more.now))) }
{
    for text in more {
        texts.push(text.clone()?)?;
    }
    Ok(())
}

/// A copy of a text, if there is one.
pub fn copy_of(text: Option<&String>) -> Result<Option<String>, AllocError>
    ensures { IfOk result (λ copy. optional_text copy ≡ optional_text_ref text.entry) }
{
    match text {
        Some(text) => Ok(Some(text.clone()?)),
        None => Ok(None),
    }
}

/// The text, if there is one, lent.
pub fn text_in(text: &Option<String>) -> Option<&str>
    ensures { option_map (λ text. text.now) result ≡ optional_text text.now }
{
    match text {
        Some(text) => Some(text.as_str()),
        None => None,
    }
}
