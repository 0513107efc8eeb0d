//! A command line into arguments, or the first error.

ghost use Rattle.std.specs.Prelude.{◌≡◌, ◌++◌, ◌&&◌, IfOk, IfErr, MatchOption, map, string_bytes};
ghost use Rattle.hack_base.specs.Names.{names_of};
ghost use Rattle.hack_rules.specs.PassedWords.{leading_of};
ghost use Rattle.hack_rules.specs.Rules.{counts, has_beside};
ghost use Rattle.hack_rules.specs.Uses.{is_given, views};
ghost use Rattle.hack_rules.specs.Values.{value_given};
ghost use Rattle.hack_base.specs.Notes.{note_of};
ghost use Rattle.hack_words.specs.ParseAnswers.{IsText, AnswersCommandLine, Refuses};
ghost use Rattle.hack_words.specs.Internal.{Judges, IsJudged, IsPrinted, GivesCuts, around_in};
ghost use Rattle.hack_rules.specs.AskedFields.{is_old_asked};
ghost use Rattle.hack_words.specs.CommandLine.{ComesFrom, Faulty, outcome_of, old_notes};
ghost use Rattle.hack_words.specs.CommandLine.{ComesTo, editing_notes, rustup_notes, unknown_notes};
ghost use Rattle.hack_rules.specs.CliFaults.{fault_of};
ghost use Rattle.hack_rules.specs.ListsView.{AreListsOf};
ghost use Rattle.hack_words.specs.StartView.{start_in};
ghost use Rattle.hack_words.specs.RustupView.{known_of, unknown_of};

use crate::cli::args::{Args, Call, Read};
use crate::cli::env::Env;
use crate::cli::notes::{tell_edits, tell_old, tell_rustup, tell_unknown};
use crate::cli::start::Start;
use hack_base::notice::Notice;
use hack_options::{Help, Opt};
use hack_rules::bare::lists_commands;
use hack_rules::early::{self, Early};
use hack_rules::fault::{Beside, CliFault};
use hack_rules::late::{self, Late, is_ranged};
use hack_rules::listed::Lists;
use hack_rules::uses::{Cuts, Print, Use, WorkspaceBehavior, all_uses, given, leading, value};
use hack_versions::rustup::Rustup;
use std::alloc::{AllocError, Global};

/// What a command line asks for.
#[derive(Drop)]
pub enum Parsed {
    Args(Args),
    /// A text to print, and nothing else: the help or the version.
    Print(String),
    /// The list of cargo's commands.
    List,
}

/// What a call reads besides its command line.
#[derive(Clone, Copy)]
pub(crate) struct Surroundings<'a> {
    pub(crate) env: &'a Env,
    pub(crate) rustup: &'a Rustup,
}

/// What the rules read. Where cargo's list is asked for, the later ones read nothing.
#[derive(Drop)]
struct Checked {
    early: Early,
    late: Option<Late>,
}

fn known_minor(rustup: &Rustup) -> Option<u32>
    ensures { result ≡ known_of rustup.now }
{
    match rustup {
        Rustup::Known(minor) => Some(*minor),
        Rustup::Unknown(_) | Rustup::Unasked => None,
    }
}

/// Checks all rules, in order.
fn keep_rules(
    alloc: Global,
    around: Surroundings<'_>,
    call: &Call,
    uses: &[Use],
) -> Result<Checked, CliFault>
    requires { names_of call.now.passed.items
        ≡ leading_of call.now.behavior (views uses.now) }
    ensures { Judges result (around_in around.entry) call.now.behavior
        (names_of call.now.trailing.items) (views uses.now) }
{
    let Surroundings { env, rustup } = around;
    let Call {
        behavior,
        passed,
        ..
    } = call;
    let term_color = env.term_color.as_ref();
    let early = early::check(alloc, *behavior, term_color, passed, uses)?;
    if lists_commands(passed, uses)? {
        return Ok(Checked { early, late: None });
    }
    let exclusive = early.lists.mutually_exclusive_features.as_slice();
    let trailing = call.trailing.as_slice();
    let late = late::check(
        alloc,
        known_minor(rustup),
        env.github_actions,
        exclusive,
        *behavior,
        trailing,
        uses,
    )?;
    Ok(Checked {
        early,
        late: Some(late),
    })
}

/// Whether unknown features are to be ignored where they can't be.
fn ignores_in_vain(lists: &Lists, uses: &[Use]) -> bool
    requires { AreListsOf (views uses.now) lists.now }
    ensures { result ≡ (is_given Opt.IgnoreUnknownFeatures (views uses.now)
        && counts Opt.IncludeFeatures (views uses.now)) }
{
    given(Opt::IgnoreUnknownFeatures, uses) && !lists.include_features.is_empty()
}

/// The notices on a command line that asks for cargo's commands.
fn first_notices(alloc: Global, lists: &Lists, uses: &[Use]) -> Result<Vec<Notice>, AllocError>
    requires { AreListsOf (views uses.now) lists.now }
    ensures { IfOk result (λ notices. map note_of notices.items
        ≡ unknown_notes (views uses.now)) }
{
    let mut notices = Vec::new(alloc);
    tell_unknown(alloc, &mut notices, ignores_in_vain(lists, uses))?;
    Ok(notices)
}

/// The notices on an accepted command line.
fn all_notices(
    alloc: Global,
    lists: &Lists,
    is_old: bool,
    uses: &[Use],
    rustup: &Rustup,
) -> Result<Vec<Notice>, AllocError>
    requires listed { AreListsOf (views uses.now) lists.now }
    requires old { is_old ≡ is_old_asked (views uses.now) }
    ensures { IfOk result (λ notices. map note_of notices.items ≡ unknown_notes (views uses.now)
        ++ rustup_notes (has_beside Beside.VersionRange (views uses.now)) (unknown_of rustup.now)
        ++ old_notes (is_old_asked (views uses.now)) (value_given Opt.VersionRange (views uses.now))
        ++ editing_notes (is_given Opt.NoDevDeps (views uses.now))
        (is_given Opt.NoPrivate (views uses.now))) }
{
    let mut notices = first_notices(alloc, lists, uses)?;
    tell_rustup(alloc, &mut notices, is_ranged(uses), rustup)?;
    tell_old(alloc, &mut notices, is_old, value(Opt::VersionRange, uses))?;
    let no_private = given(Opt::NoPrivate, uses);
    tell_edits(alloc, &mut notices, given(Opt::NoDevDeps, uses), no_private)?;
    Ok(notices)
}

/// The outcome of uses of options.
fn judge_uses(
    alloc: Global,
    around: Surroundings<'_>,
    behavior: WorkspaceBehavior,
    trailing: Vec<String>,
    uses: &[Use],
) -> Result<(Parsed, Vec<Notice>), CliFault>
    ensures ok { IfOk result (λ answer.
        IsJudged (around_in around.entry) behavior (names_of trailing.items)
        (views uses.now) answer.0 (map note_of answer.1.items)) }
    ensures err { IfErr result (λ e.
        MatchOption (fault_of e) (e ≡ CliFault.Memory)
        (λ fault. outcome_of (around_in around.entry) behavior (names_of trailing.items)
        (views uses.now) ≡ Faulty fault)) }
{
    let call = Call {
        behavior,
        passed: leading(alloc, behavior, uses)?,
        trailing,
    };
    let Checked { early, late } = keep_rules(alloc, around, &call, uses)?;
    let Some(late) = late else {
        return Ok((Parsed::List, first_notices(alloc, &early.lists, uses)?));
    };
    let is_old = late.versions.is_old;
    let notices = all_notices(alloc, &early.lists, is_old, uses, around.rustup)?;
    let read = Read { call, early, late };
    Ok((Parsed::Args(Args::of(alloc, read, uses)?), notices))
}

/// The text that the command line asks to be printed.
fn text_of(alloc: Global, print: Print) -> Result<String, AllocError>
    ensures { IfOk result (λ text. IsText print (string_bytes text)) }
{
    match print {
        Print::ShortHelp => format!(in alloc; "{}", Help::short()),
        Print::LongHelp => format!(in alloc; "{}", Help::long()),
        Print::Version => String::from_str(alloc, "cargo-hack 0.6.46\n"),
    }
}

/// All parsed uses of options, or what parsing ends with instead.
pub(crate) fn cut(alloc: Global, words: Vec<String>) -> Result<Cuts, CliFault>
    ensures { GivesCuts result (map string_bytes words.items) }
{
    Ok(all_uses(alloc, words)?)
}

/// The answer to a command line that asks for a text.
fn print_answer(alloc: Global, print: Print) -> Result<(Parsed, Vec<Notice>), AllocError>
    ensures { IfOk result (λ answer. IsPrinted print answer.0 (map note_of answer.1.items)) }
{
    let text = text_of(alloc, print)?;
    Ok((Parsed::Print(text), Vec::new(alloc)))
}

/// The outcome of a command line, given its start.
fn parse_start(
    alloc: Global,
    around: Surroundings<'_>,
    start: Start,
) -> Result<(Parsed, Vec<Notice>), CliFault>
    ensures ok { IfOk result (λ answer.
        AnswersCommandLine (around_in around.entry)
        (ComesFrom (around_in around.entry) (start_in start)) answer.0
        (map note_of answer.1.items)) }
    ensures err { IfErr result (Refuses (ComesFrom (around_in around.entry) (start_in start))) }
{
    let Start {
        behavior,
        words,
        trailing,
    } = start;
    match cut(alloc, words)? {
        Cuts::Asks(print) => Ok(print_answer(alloc, print)?),
        Cuts::Uses(uses) => judge_uses(alloc, around, behavior, trailing, uses.as_slice()),
    }
}

/// The outcome of a command line, or the error of the first rule that it breaks.
pub(crate) fn read_words(
    alloc: Global,
    around: Surroundings<'_>,
    words: &[String],
) -> Result<(Parsed, Vec<Notice>), CliFault>
    ensures ok { IfOk result (λ answer.
        AnswersCommandLine (around_in around.entry)
        (ComesTo (around_in around.entry) (names_of words.now)) answer.0
        (map note_of answer.1.items)) }
    ensures err { IfErr result (Refuses (ComesTo (around_in around.entry) (names_of words.now))) }
{
    let start = Start::of(alloc, words)?;
    parse_start(alloc, around, start)
}
