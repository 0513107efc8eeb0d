//! Manifests by questions. Texts are written as rows show them.
//!
//! `cut TEXT` are the pieces of a text. `package MINOR TEXT` is what a manifest says about its
//! package where cargo has this minor version: `publish` and `rust-version`. `features TEXT` are
//! its features with their values, as `a=b,c,;`, and `text TEXT` is the text that it keeps. The
//! answer to each may be an error; `fault of memory` is the one of memory.

mod cuts;
mod reads;

use crate::tests::manifest::cuts::cut;
use crate::tests::manifest::reads::{features, kept, package, told};
use hack_holds::{Ask, Wrong, hold};
use hack_manifest::manifest::ManifestFault;
use std::alloc::{AllocError, Global};

#[derive(Drop)]
struct Manifests {}

impl Ask for Manifests {
    fn answer(&mut self, alloc: Global, question: &str) -> Result<String, AllocError> {
        let (kind, rest) = question.split_once(' ').unwrap_or((question, ""));
        match kind {
            "cut" => cut(alloc, rest),
            "package" => package(alloc, rest),
            "features" => features(alloc, rest),
            "text" => kept(alloc, rest),
            "fault" => told(alloc, &ManifestFault::Memory),
            _ => String::from_str(alloc, "no such question"),
        }
    }
}

/// Checks rows on manifests.
fn on(alloc: Global, rows: &str) -> Result<(), Wrong> {
    hold(alloc, &mut Manifests {}, rows)
}
