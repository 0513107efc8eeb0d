//! Lists of commands: from arguments and the bytes of a feature map to the bytes of the list, or
//! the first error.

use crate::answers::Found;
use crate::table::Group;
use hack_powerset_list::powerset_list;
use std::alloc::{AllocError, Global};

/// `powerset-list`: the lines for the input, which is the first argument, and the arguments after
/// it, or the error.
pub(crate) fn answer(alloc: Global, group: &Group, words: &[String]) -> Found {
    if group.kind.as_str() != "powerset-list" {
        return Ok(None);
    }
    let (input, words) = match words.split_first() {
        Some((input, words)) => (input.as_str(), words),
        None => ("", words),
    };
    let mut input = input.as_bytes();
    let mut out = Vec::new(alloc);
    match powerset_list(alloc, words, &mut input, &mut out) {
        Ok(()) => Ok(Some(text_of(alloc, out)?)),
        Err(fault) => Ok(Some(format!(in alloc; "{fault}")?)),
    }
}

/// The bytes as a text.
fn text_of(alloc: Global, bytes: Vec<u8>) -> Result<String, AllocError> {
    match String::from_utf8(bytes) {
        Ok(text) => Ok(text),
        Err(_) => String::from_str(alloc, "no text"),
    }
}
