//! Edits of manifests by questions. Texts are written as rows show them, in the answer too.
//!
//! `edit TEXT` takes out the development dependencies, twice: the result of the second edit is
//! shown only where it differs. `features ..` does so with a text of features after tables of
//! dependencies. `without PATH ..; TEXT` takes the private crates at these paths out of the
//! workspace at `/w`. The answer to each may be an error, after `refused`; `fault NAME` is its
//! text.

mod dev_deps;
mod features;
mod manifests;
mod private_crates;

use crate::tests::edits::features::thinned;
use crate::tests::edits::private_crates::{fault, without};
use crate::tests::text::{plain, shown};
use hack_edits::manifest::{EditFault, remove_dev_deps};
use hack_holds::{Ask, Wrong, hold};
use std::alloc::{AllocError, Global};

/// The result of an edit, or the error.
fn given(alloc: Global, outcome: Result<String, EditFault>) -> Result<String, AllocError> {
    match outcome {
        Ok(text) => shown(alloc, text.as_str()),
        Err(fault) => format!(in alloc; "refused: {fault:?}"),
    }
}

/// The result of an edit, and that of a second edit of it where it differs.
fn twice(alloc: Global, once: &str) -> Result<String, AllocError> {
    let second = given(alloc, remove_dev_deps(alloc, once))?;
    let mut answer = shown(alloc, once)?;
    if second != answer {
        answer.push_str("\n")?;
        answer.push_str(second.as_str())?;
    }
    Ok(answer)
}

fn edited(alloc: Global, text: &str) -> Result<String, AllocError> {
    let text = plain(alloc, text)?;
    match remove_dev_deps(alloc, text.as_str()) {
        Ok(once) => twice(alloc, once.as_str()),
        Err(fault) => given(alloc, Err(fault)),
    }
}

#[derive(Drop)]
struct Edits {}

impl Ask for Edits {
    fn answer(&mut self, alloc: Global, question: &str) -> Result<String, AllocError> {
        let (kind, rest) = question.split_once(' ').unwrap_or((question, ""));
        match kind {
            "edit" => edited(alloc, rest),
            "features" => thinned(alloc, rest),
            "without" => without(alloc, rest),
            "fault" => fault(alloc, rest),
            _ => String::from_str(alloc, "no such question"),
        }
    }
}

/// Checks rows on edits.
fn on(alloc: Global, rows: &str) -> Result<(), Wrong> {
    hold(alloc, &mut Edits {}, rows)
}
