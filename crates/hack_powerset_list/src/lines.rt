//! The lines of a command list.

ghost use Rattle.std.specs.Prelude.{◌≡◌, ◌<◌, ◌++◌, [], codes, map, string_bytes, IfOk, OnOk};
ghost use Rattle.std.specs.Prelude.{OnErr};
ghost use Rattle.hack_base.specs.Names.{names_behind, names_of};
ghost use Rattle.hack_features.specs.Feature.{name_of};
ghost use Rattle.hack_process.specs.CommandTexts.{listed_of};
ghost use Rattle.hack_base.specs.Writes.{AppendsFront};
ghost use Rattle.hack_powerset_list.specs.LineWords.{PrintsText};
ghost use Rattle.hack_powerset_list.specs.Internal.{own_command, TurnsPage};
ghost use Rattle.hack_powerset_list.specs.Streams.{CountsUnlessMemory};

use hack_base::writes::{Sink, write_front};
use hack_features::Feature;
use hack_process::process::ProcessBuilder;
use std::alloc::{AllocError, Global};
use std::io;

/// The texts of which lines consist; each is made once. Each feature has two.
#[derive(Drop)]
pub struct Texts {
    /// The command without arguments of its own.
    pub plain: String,
    /// The command with `--no-default-features`.
    pub no_default: String,
    /// Each name as it is printed where it is the first of a set: after ` --features `.
    pub first: Vec<String>,
    /// Each name as it is printed where it isn't the first of a set: after `,`.
    pub next: Vec<String>,
}

/// The text of a command: `cargo`, then the arguments that are passed on, then its own arguments.
fn beginning(alloc: Global, passed: &[String], own: &[&str]) -> Result<String, AllocError>
    ensures { IfOk result (λ text. string_bytes text
        ≡ listed_of [] (own_command (map string_bytes passed.now) (names_behind own.now))) }
{
    let mut command = ProcessBuilder::new(alloc, "cargo")?;
    command.pass_words(passed, &[]);
    command.args(own)?;
    let line = command.listed("");
    format!(in alloc; "{line}")
}

/// The names of the features, each with the same text before it.
fn names_behind(
    alloc: Global,
    before: &str,
    features: &[Feature],
) -> Result<Vec<String>, AllocError>
    ensures { IfOk result (λ texts. names_of texts.items
        ≡ map (λ name. before.now ++ name) (map name_of features.now)) }
{
    let mut texts = Vec::with_capacity(alloc, features.len())?;
    for feature in features {
        let mut text = String::from_str(alloc, before)?;
        text.push_str(feature.name())?;
        texts.push(text)?;
    }
    Ok(texts)
}

impl Texts {
    ghost use Rattle.hack_powerset_list.specs.LinesView.{AreTexts};

    /// The texts of `cargo check`.
    pub fn of_check(alloc: Global, features: &[Feature]) -> Result<Texts, AllocError>
        ensures { IfOk result (AreTexts (map name_of features.now)) }
    {
        let mut passed = Vec::new(alloc);
        passed.push(String::from_str(alloc, "check")?)?;
        Ok(Texts {
            plain: beginning(alloc, passed.as_slice(), &[])?,
            no_default: beginning(alloc, passed.as_slice(), &["--no-default-features"])?,
            first: names_behind(alloc, " --features ", features)?,
            next: names_behind(alloc, ",", features)?,
        })
    }
}

/// How many bytes fill a page.
const FULL: usize = 32_768;

/// Returns an empty page, with room for what fills it and a line more.
pub fn empty_page(alloc: Global) -> Result<String, AllocError>
    ensures { IfOk result (λ page. string_bytes page ≡ []) }
{
    String::with_capacity(alloc, 2 * FULL)
}

/// Writes the page and empties it, if it is full.
fn turn_full_page<W: Sink>(page: &mut String, out: &mut W) -> io::Result<()>
    ensures ok { OnOk result (TurnsPage (W.contents out.old) (W.contents out.new)
        (string_bytes page.old) (string_bytes page.new)) }
    ensures err { OnErr result (AppendsFront (W.contents out.old) (W.contents out.new)
        (string_bytes page.old)) }
    ensures counted { CountsUnlessMemory (W.failed out.old) (W.failed out.new) result }
{
    if page.len() < FULL {
        return Ok(());
    }
    write_front(page.as_str(), out)?;
    page.clear();
    Ok(())
}

/// Adds a line that consists of three texts to the page, or a front of the line if memory is
/// refused.
fn push_line(command: &str, first: &str, others: &str, page: &mut String) -> Result<(), AllocError>
    ensures { OnOk result (string_bytes page.new ≡ string_bytes page.old
        ++ (command.now ++ first.now ++ others.now ++ codes "\n")) }
{
    page.push_str(command)?;
    page.push_str(first)?;
    page.push_str(others)?;
    page.push_str("\n")
}

/// Prints a line that consists of three texts: adds it to the page, and writes the page if it is
/// full then. If memory is refused or a write fails, a front of the page is written, maybe an empty
/// one.
pub fn print_line<W: Sink>(
    command: &str,
    first: &str,
    others: &str,
    page: &mut String,
    out: &mut W,
) -> io::Result<()>
    ensures ok { OnOk result (PrintsText (W.contents out.old) (W.contents out.new)
        (string_bytes page.old) (string_bytes page.new)
        (command.now ++ first.now ++ others.now ++ codes "\n")) }
    ensures err { OnErr result (AppendsFront (W.contents out.old) (W.contents out.new)
        (string_bytes page.old ++ (command.now ++ first.now ++ others.now ++ codes "\n"))) }
    ensures counted { CountsUnlessMemory (W.failed out.old) (W.failed out.new) result }
{
    push_line(command, first, others, page)?;
    turn_full_page(page, out)
}
