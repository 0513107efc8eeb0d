//! Steps that are listed: `list` with arguments answers the lines, how many steps were handed out,
//! and how many lines failed. `cuts` lets each write of the list fail in turn, and answers the same
//! for each, leaving out repetitions: how many line feeds were written, and whether that is a
//! prefix of the list. The last line says whether a list has many writes.

use crate::tests::asked::on;
use crate::tests::scene::{context_of, scene_of};
use crate::tests::sessions::driven;
use crate::tests::worlds::PLAIN;
use hack_drive::drive::Teller;
use hack_files::fs::FailingWriter;
use hack_holds::Wrong;
use hack_load::context::Context;
use hack_process::process::{End, FakeCaller};
use hack_session::session::{Lines, Lister, Starter};
use hack_term::term::{Coloring, LogGroup, Term};
use std::alloc::{AllocError, Global};
use std::io::Write;
use std::{fmt, io};

/// Lines that are written one by one.
#[derive(Drop)]
struct Written<'a, W: Write> {
    out: &'a mut W,
    failed: u64,
}

impl<W: Write> Lines for Written<'_, W> {
    ghost use Rattle.std.specs.Prelude.{◌≡◌};
    ghost use Rattle.std.proofs.Common.{◌∙◌, refl};

    ghost contents = { λ w. W.contents w.out.now };

    // A writer may take a part of a text before it fails.
    ghost whole = { ⊥ };

    ghost failed = { λ w. w.failed };

    ghost stays = { λ a b. a.out.ghost_name ≡ b.out.ghost_name };

    ghost stays_none = { λ a. refl };

    ghost stays_more = { λ a b c p q. p ∙ q };

    fn line<D: fmt::Display + Drop>(&mut self, text: D) -> Result<(), fmt::Error> {
        match self.out.writeln(text) {
            Ok(()) => Ok(()),
            Err(_) => {
                self.failed = self.failed.saturating_add(1);
                Err(fmt::Error)
            }
        }
    }
}

/// Lists a plan on lines, and sends what isn't listed to a runner; how many steps were handed out.
fn list_over<W: Lines, R: Teller>(
    alloc: Global,
    cx: &Context,
    out: &mut W,
    runner: &mut R,
) -> Result<usize, Wrong> {
    let mut lister = Lister {
        alloc,
        out,
        runner,
        refused: 0,
    };
    let session = driven(alloc, cx, &mut lister)?;
    let mut handed: usize = 0;
    for _ in session.handed() {
        handed = handed.saturating_add(1);
    }
    Ok(handed)
}

/// Lists a plan on a writer; how many steps were handed out, and how many lines failed.
fn list_on<W: Write>(alloc: Global, cx: &Context, list: &mut W) -> Result<(usize, u64), Wrong> {
    let mut caller = FakeCaller::new(alloc, End::Status(0));
    let mut term = Term::new(Coloring::Never, false);
    let mut fault = None;
    let (mut out, mut err) = (io::sink(), io::sink());
    let mut starter = Starter::new(
        alloc,
        &mut caller,
        &mut term,
        &mut out,
        &mut err,
        &mut fault,
    );
    starter.set_manner(LogGroup::None, cx.args().keep_going);
    let mut lines = Written {
        out: list,
        failed: 0,
    };
    let handed = list_over(alloc, cx, &mut lines, &mut starter)?;
    Ok((handed, lines.failed))
}

/// The result of a list.
#[derive(Drop)]
struct Listed {
    text: String,
    handed: usize,
    failed: u64,
}

/// Lists a plan on a writer that fails at this write.
fn cut_at(alloc: Global, cx: &Context, failing: u64) -> Result<Listed, Wrong> {
    let mut list = FailingWriter::new(Vec::new(alloc), failing);
    let (handed, failed) = list_on(alloc, cx, &mut list)?;
    let text = String::from_utf8_lossy(alloc, list.inner().as_slice())?;
    Ok(Listed {
        text,
        handed,
        failed,
    })
}

pub fn list(alloc: Global, world: &str, words: &str) -> Result<String, Wrong> {
    let mut scene = scene_of(alloc, world, words)?;
    let cx = context_of(alloc, &mut scene)?;
    let whole = cut_at(alloc, &cx, 0)?;
    let (text, handed, failed) = (whole.text.as_str(), whole.handed, whole.failed);
    Ok(format!(in alloc; "{text}{handed} steps, {failed} failed")?)
}

fn line_feeds(text: &str) -> usize {
    let mut found = 0_usize;
    for byte in text.as_bytes() {
        if *byte == b'\n' {
            found = found.saturating_add(1);
        }
    }
    found
}

fn front_of(text: &str, whole: &str) -> &'static str {
    if text == whole {
        "the whole"
    } else if whole.starts_with(text) {
        "a front"
    } else {
        "no front"
    }
}

/// The result of a list that was cut short, compared with the whole one.
fn cut_line(alloc: Global, cut: &Listed, whole: &str) -> Result<String, AllocError> {
    let text = cut.text.as_str();
    let front = front_of(text, whole);
    let (handed, failed, feeds) = (cut.handed, cut.failed, line_feeds(text));
    format!(in alloc; "{handed} steps, {failed} failed, {feeds} line feeds, {front}\n")
}

/// Appends the line of a cut to the text, unless it repeats the last one.
fn push_cut(text: &mut String, alloc: Global, cut: &Listed, whole: &str) -> Result<(), AllocError> {
    let line = cut_line(alloc, cut, whole)?;
    if text.as_str().ends_with(line.as_str()) {
        return Ok(());
    }
    text.push_str(line.as_str())
}

/// Appends the results of each write that fails to the text, up to the first write that isn't made;
/// returns how many are made.
fn push_cuts(text: &mut String, alloc: Global, cx: &Context, whole: &str) -> Result<u64, Wrong> {
    for failing in 1..=100_u64 {
        let cut = cut_at(alloc, cx, failing)?;
        push_cut(text, alloc, &cut, whole)?;
        if cut.failed == 0 {
            return Ok(failing.saturating_sub(1));
        }
    }
    Ok(100)
}

pub fn cuts(alloc: Global, world: &str, words: &str) -> Result<String, Wrong> {
    let mut scene = scene_of(alloc, world, words)?;
    let cx = context_of(alloc, &mut scene)?;
    let whole = cut_at(alloc, &cx, 0)?;
    let mut text = String::new(alloc);
    let writes = push_cuts(&mut text, alloc, &cx, whole.text.as_str())?;
    let many = 8 <= writes && writes < 100;
    text.push_str(if many { "many writes" } else { "few writes" })?;
    Ok(text)
}

#[test]
fn lists(rt: HostRuntime) -> Result<(), Wrong> {
    on(
        rt.alloc(),
        PLAIN,
        r#"
            > list: hack check --each-feature --partition 2/3 --clean-per-run; features a d
            | cargo clean --package p
            | cargo check --manifest-path Cargo.toml --no-default-features --features a
            | cargo clean --package p
            | cargo check --manifest-path Cargo.toml --no-default-features --features d
            | 4 steps, 0 failed

            > list: hack check --each-feature; features a d
            | cargo check --manifest-path Cargo.toml --all-features
            | cargo check --manifest-path Cargo.toml --no-default-features
            | cargo check --manifest-path Cargo.toml --no-default-features --features a
            | cargo check --manifest-path Cargo.toml --no-default-features --features d
            | 4 steps, 0 failed
        "#,
    )
}

// A list ends at the first line that fails; it continues after it where runs go on.
#[test]
fn each_write_of_a_list_fails(rt: HostRuntime) -> Result<(), Wrong> {
    on(
        rt.alloc(),
        PLAIN,
        r#"
            > cuts: hack check --each-feature; features a d
            | 1 steps, 1 failed, 0 line feeds, a front
            | 2 steps, 1 failed, 1 line feeds, a front
            | 3 steps, 1 failed, 2 line feeds, a front
            | 4 steps, 1 failed, 3 line feeds, a front
            | 4 steps, 0 failed, 4 line feeds, the whole
            | many writes

            # A prefix is left where the last line fails.
            > cuts: hack check --each-feature --keep-going; features a d
            | 4 steps, 1 failed, 3 line feeds, no front
            | 4 steps, 1 failed, 3 line feeds, a front
            | 4 steps, 0 failed, 4 line feeds, the whole
            | many writes
        "#,
    )
}
