//! Paths as texts.

use crate::answers::{Found, word};
use crate::table::Group;
use hack_base::paths::{join, normal, parent, stem, under};
use std::alloc::Global;

/// `stem`, `parent`, `normal` of a path; `under` of a path and a folder; `join` of a folder and a
/// path.
pub(crate) fn answer(alloc: Global, group: &Group, words: &[String]) -> Found {
    let (first, second) = (word(words, 0), word(words, 1));
    let text = match group.kind.as_str() {
        "stem" => String::from_str(alloc, stem(first))?,
        "parent" => String::from_str(alloc, parent(first))?,
        "normal" => normal(alloc, first)?,
        "under" => String::from_str(alloc, under(first, second))?,
        "join" => join(alloc, first, second)?,
        _ => return Ok(None),
    };
    Ok(Some(text))
}
