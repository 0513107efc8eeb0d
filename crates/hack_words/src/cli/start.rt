//! The start of a command line, before options are parsed.

ghost use Rattle.std.specs.Prelude.{◌≡◌, ◌||◌, codes, nat_eq, bytes_eq};
ghost use Rattle.std.specs.List.{starts_with};
ghost use Rattle.hack_base.specs.Names.{names_of};
ghost use Rattle.hack_words.specs.Start.{front_words, trailing_words, is_behavior as behavior};
ghost use Rattle.hack_words.specs.Start.{wants_rustup as rustup_wanted};
ghost use Rattle.hack_words.specs.StartView.{ReturnsStart};
ghost use Rattle.hack_words.specs.Internal.{TakesOut};

use hack_base::copies::copies;
use hack_options::Opt;
use hack_rules::fault::CliFault;
use hack_rules::uses::{CutFault, OwnedFlag, WorkspaceBehavior};
use std::alloc::{AllocError, Global};

/// The arguments before the first `--`, and those after it.
fn split_at_dashes(words: &[String]) -> (&[String], &[String])
    ensures front { names_of result.0.now ≡ front_words (names_of words.now) }
    ensures trailing { names_of result.1.now ≡ trailing_words (names_of words.now) }
{
    for (place, word) in words.iter().enumerate() {
        if word.as_str() == "--" {
            return (&words[..place], &words[place + 1..]);
        }
    }
    (words, &[])
}

fn is_range_option(word: &str) -> bool
    ensures { result ≡ (bytes_eq word.now (codes "--rust-version")
        || bytes_eq word.now (codes "--version-range")) }
{
    word == "--rust-version" || word == "--version-range"
}

fn has_range(word: &str) -> bool
    ensures { result ≡ starts_with nat_eq word.now (codes "--version-range=") }
{
    word.starts_with("--version-range=")
}

/// Whether rustup must be asked for its own version before these arguments are parsed: where one
/// before the first `--` asks for a range of versions.
pub fn wants_rustup(words: &[String]) -> bool
    ensures { result ≡ rustup_wanted (names_of words.now) }
{
    let (front, _) = split_at_dashes(words);
    for word in front {
        if is_range_option(word.as_str()) || has_range(word.as_str()) {
            return true;
        }
    }
    false
}

fn is_behavior(word: &str) -> bool
    ensures { result ≡ behavior word.now }
{
    word == "--workspace-behavior=cargo"
}

/// The arguments before `--`, without the one that leaves workspaces to Cargo.
#[derive(Drop)]
struct Front {
    behavior: WorkspaceBehavior,
    words: Vec<String>,
}

/// Takes out the argument that leaves workspaces to Cargo, which is allowed once.
fn taken_out(alloc: Global, front: &[String]) -> Result<Front, CliFault>
    ensures { TakesOut result (names_of front.now) }
{
    let mut words = Vec::new(alloc);
    let mut behavior = WorkspaceBehavior::Default;
    for word in front {
        if !is_behavior(word.as_str()) {
            words.push(word.clone()?)?;
        } else if behavior == WorkspaceBehavior::Cargo {
            let flag = OwnedFlag::Long(String::from_str(alloc, "workspace-behavior")?);
            return Err(CliFault::Cut {
                fault: CutFault::Repeat {
                    flag,
                    option: Opt::WorkspaceBehavior,
                    subcommand: None,
                },
            });
        } else {
            behavior = WorkspaceBehavior::Cargo;
        }
    }
    Ok(Front { behavior, words })
}

/// The start of a command line.
#[derive(Drop)]
pub struct Start {
    pub behavior: WorkspaceBehavior,
    /// The arguments that are parsed into options.
    pub words: Vec<String>,
    /// The arguments after the first `--`.
    pub trailing: Vec<String>,
}

impl Start {
    /// The first argument must be `hack`. The arguments after it are parsed, up to the first `--`.
    pub fn of(alloc: Global, words: &[String]) -> Result<Start, CliFault>
        ensures { ReturnsStart result (names_of words.now) }
    {
        let [first, rest @ ..] = words else {
            return Err(CliFault::NoWord);
        };
        if first.as_str() != "hack" {
            return Err(CliFault::NotHack {
                found: first.clone()?,
            });
        }
        let (front, trailing) = split_at_dashes(rest);
        let Front { behavior, words } = taken_out(alloc, front)?;
        let trailing = copies(alloc, trailing)?;
        Ok(Start {
            behavior,
            words,
            trailing,
        })
    }
}
