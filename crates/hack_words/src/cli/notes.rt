//! Notices on an accepted command line.

ghost use Rattle.std.specs.Prelude.{◌≡◌, ◌++◌, IfOk, OnOk, codes, string_bytes};
ghost use Rattle.hack_base.specs.Names.{optional_text_ref};
ghost use Rattle.hack_base.specs.Notes.{AddsNotes, note_if};
ghost use Rattle.hack_words.specs.CommandLine.{editing_notes, editing_options as options_that_edit};
ghost use Rattle.hack_words.specs.CommandLine.{editing_words, rustup_notes, new_form as newer_form};
ghost use Rattle.hack_words.specs.CommandLine.{old_notes, old_words, rustup_words, unknown_words};
ghost use Rattle.hack_words.specs.RustupView.{unknown_of};

use hack_base::notice::{Notice, NoticeKind, tell};
use hack_versions::rustup::Rustup;
use std::alloc::{AllocError, Global};

fn unknown_text(alloc: Global) -> Result<String, AllocError>
    ensures { IfOk result (λ text. string_bytes text ≡ unknown_words) }
{
    String::from_str(
        alloc,
        "--ignore-unknown-features for --include-features is not fully implemented and may not work as intended",
    )
}

/// Reports that unknown features are not ignored everywhere.
pub fn tell_unknown(alloc: Global, notices: &mut Vec<Notice>, told: bool) -> Result<(), AllocError>
    ensures { OnOk result (AddsNotes notices.old notices.new
        (note_if told NoticeKind.QuietWarn unknown_words)) }
{
    if told {
        tell(notices, true, NoticeKind::QuietWarn, unknown_text(alloc)?)?;
    }
    Ok(())
}

fn rustup_text(alloc: Global, why: &str) -> Result<String, AllocError>
    ensures { IfOk result (λ text. string_bytes text ≡ rustup_words why.now) }
{
    format!(in alloc; "unable to determine rustup version; assuming latest stable rustup: {why}")
}

/// Reports that rustup's version isn't known, where a range is given.
pub fn tell_rustup(
    alloc: Global,
    notices: &mut Vec<Notice>,
    ranged: bool,
    rustup: &Rustup,
) -> Result<(), AllocError>
    ensures { OnOk result (AddsNotes notices.old notices.new
        (rustup_notes ranged (unknown_of rustup.now))) }
{
    match rustup {
        Rustup::Unknown(why) if ranged => {
            let text = rustup_text(alloc, why.as_str())?;
            tell(notices, true, NoticeKind::Warn, text)
        }
        Rustup::Unknown(_) | Rustup::Unasked | Rustup::Known(_) => Ok(()),
    }
}

fn inclusive(alloc: Global, front: &str, back: &str) -> Result<String, AllocError>
    ensures { IfOk result (λ range. string_bytes range ≡ front.now ++ codes "..=" ++ back.now) }
{
    format!(in alloc; "{front}..={back}")
}

/// A range rewritten in its new form.
fn new_form(alloc: Global, text: &str) -> Result<String, AllocError>
    ensures { IfOk result (λ newer. string_bytes newer ≡ newer_form text.now) }
{
    match text.split_once("..") {
        Some((front, back)) => inclusive(alloc, front, back),
        None => String::from_str(alloc, text),
    }
}

fn old_text(alloc: Global, newer: &str) -> Result<String, AllocError>
    ensures { IfOk result (λ text. string_bytes text ≡ old_words newer.now) }
{
    format!(in alloc; "using `..` for inclusive range is deprecated; consider using `{newer}`")
}

/// Reports that a range has the old form.
pub fn tell_old(
    alloc: Global,
    notices: &mut Vec<Notice>,
    is_old: bool,
    range: Option<&String>,
) -> Result<(), AllocError>
    ensures { OnOk result (AddsNotes notices.old notices.new
        (old_notes is_old (optional_text_ref range.entry))) }
{
    match range {
        Some(range) if is_old => {
            let newer = new_form(alloc, range.as_str())?;
            let text = old_text(alloc, newer.as_str())?;
            tell(notices, true, NoticeKind::Warn, text)
        }
        Some(_) => Ok(()),
        None => Ok(()),
    }
}

/// The options that edit manifests while commands run.
fn editing_options(no_dev_deps: bool, no_private: bool) -> &'static str
    ensures { result.now ≡ options_that_edit no_dev_deps no_private }
{
    if !no_dev_deps {
        "--no-private modifies"
    } else if no_private {
        "--no-dev-deps and --no-private modify"
    } else {
        "--no-dev-deps modifies"
    }
}

fn edits_text(alloc: Global, options: &str) -> Result<String, AllocError>
    ensures { IfOk result (λ text. string_bytes text ≡ editing_words options.now) }
{
    format!(in alloc;
        "{options} real `Cargo.toml` while cargo-hack is running and restores it when finished"
    )
}

/// Reports that manifests are edited while commands run.
pub fn tell_edits(
    alloc: Global,
    notices: &mut Vec<Notice>,
    no_dev_deps: bool,
    no_private: bool,
) -> Result<(), AllocError>
    ensures { OnOk result (AddsNotes notices.old notices.new
        (editing_notes no_dev_deps no_private)) }
{
    let edits = no_dev_deps || no_private;
    if edits {
        let text = edits_text(alloc, editing_options(no_dev_deps, no_private))?;
        tell(notices, true, NoticeKind::Info, text)?;
    }
    Ok(())
}
