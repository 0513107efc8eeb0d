//! The kinds of rows, and the call that answers each.

use crate::table::Group;
use crate::{commands, lists, own_rules, packages, paths, stored, uses, versions, words};
use std::alloc::{AllocError, Global};

/// The answer to the arguments of a row; none where the kind is unknown to who is asked.
pub(crate) type Found = Result<Option<String>, AllocError>;

/// Returns the answer of the first module that knows the kind, if one does.
macro_rules! first_of {
    ($alloc:ident, $group:ident, $words:ident: $($module:ident),*) => {
        $(
            if let Some(text) = $module::answer($alloc, $group, $words)? {
                return Ok(Some(text));
            }
        )*
    };
}

pub(crate) fn answer(alloc: Global, group: &Group, words: &[String]) -> Found {
    first_of!(
        alloc, group, words:
        words, uses, lists, versions, paths, packages, stored, own_rules, commands
    );
    Ok(None)
}

/// The argument at an index; empty where there is none.
pub(crate) fn word(words: &[String], place: usize) -> &str {
    match words.get(place) {
        Some(word) => word.as_str(),
        None => "",
    }
}

/// A text, or `none` where there is none.
pub(crate) fn or_none(alloc: Global, text: Option<&str>) -> Result<String, AllocError> {
    String::from_str(alloc, text.unwrap_or("none"))
}

/// `yes` or `no`.
pub(crate) fn yes(alloc: Global, holds: bool) -> Result<String, AllocError> {
    String::from_str(alloc, if holds { "yes" } else { "no" })
}

/// The texts, separated by bars; `nothing` where there is none.
pub(crate) fn joined(alloc: Global, texts: &[String]) -> Result<String, AllocError> {
    let mut text = String::new(alloc);
    for (place, part) in texts.iter().enumerate() {
        if place > 0 {
            text.push_str("|")?;
        }
        text.push_str(part.as_str())?;
    }
    if texts.is_empty() {
        text.push_str("nothing")?;
    }
    Ok(text)
}
