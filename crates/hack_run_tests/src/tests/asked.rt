//! Calls as questions: what is shown, the arguments, and after each `;` what is given besides the
//! world of the test, as in `err changes: hack check; fails 1 cargo check`.
//!
//! Of a whole call the sections of `shown` are shown; if none is named, these are the calls, both
//! streams and the changes of files. The status comes last. The other questions are those of the
//! modules `edits`, `failing`, `journaled`, `listed`, `performed`, `sessions`, `steps` and
//! `toolchains`.

use crate::tests::edits::edits;
use crate::tests::failing::failing;
use crate::tests::journaled::journaled;
use crate::tests::listed::{cuts, list};
use crate::tests::performed::performed;
use crate::tests::scene::{scene_of, told};
use crate::tests::sessions::session;
use crate::tests::shared::spelled_out;
use crate::tests::shown::push_sections;
use crate::tests::steps::steps;
use crate::tests::toolchains::toolchain;
use crate::tests::world::world_of;
use hack_holds::{Ask, Wrong, hold};
use hack_run::run::run;
use std::alloc::{AllocError, Global};

/// The sections of a whole call where none is named.
const ALL: &str = "calls err out changes";

/// The world in which questions are answered.
#[derive(Clone, Copy)]
struct Asked<'a> {
    world: &'a str,
}

impl Ask for Asked<'_> {
    fn answer(&mut self, alloc: Global, question: &str) -> Result<String, AllocError> {
        let (asked, givens) = question.split_once("; ").unwrap_or((question, ""));
        let world = world_of(alloc, givens, self.world)?;
        let (kind, words) = asked.split_once(": ").unwrap_or((ALL, asked));
        answered(alloc, kind, world.as_str(), words)
    }
}

fn answered(alloc: Global, kind: &str, world: &str, words: &str) -> Result<String, AllocError> {
    match kind {
        "journal" => journaled(alloc, world, words),
        "performed" => performed(alloc, world, words),
        "edits" => told(edits(alloc, world, words)),
        "session" => told(session(alloc, world, words, false)),
        "context" => told(session(alloc, world, words, true)),
        "list" => told(list(alloc, world, words)),
        "cuts" => told(cuts(alloc, world, words)),
        "steps" => told(steps(alloc, world, words)),
        "toolchain" => toolchain(alloc, world, words),
        "each broken call" => failing(alloc, world, words),
        sections => called(alloc, world, words, sections),
    }
}

/// A whole call: the sections, and its status.
pub fn called(
    alloc: Global,
    world: &str,
    words: &str,
    sections: &str,
) -> Result<String, AllocError> {
    let mut scene = scene_of(alloc, world, words)?;
    let (words, files, mut host) = scene.parts(alloc);
    let status = run(words, None, files, &mut host);
    let mut text = String::new(alloc);
    push_sections(&mut text, alloc, &scene, sections)?;
    format!(in alloc; "{text}status {status}")
}

/// Checks rows in a world; both may have texts of `shared`.
pub fn on(alloc: Global, world: &str, rows: &str) -> Result<(), Wrong> {
    let world = spelled_out(alloc, world)?;
    let rows = spelled_out(alloc, rows)?;
    let mut asked = Asked {
        world: world.as_str(),
    };
    hold(alloc, &mut asked, rows.as_str())
}
