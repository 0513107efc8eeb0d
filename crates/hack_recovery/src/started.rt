//! What a call is started with: how lines are coloured, the arguments and the environment.

ghost use Rattle.std.specs.Prelude.{◌≡◌, IfOk, false, string_bytes};
ghost use Rattle.std.specs.Option.{unwrap_or};
ghost use Rattle.hack_base.specs.Names.{optional_text};
ghost use Rattle.hack_term.specs.declared.term.Coloring.TheVariants.{Auto};
ghost use Rattle.hack_recovery.specs.SystemView.{state_of};
ghost use Rattle.hack_recovery.specs.InternalStart.{GivesFlag, GivesText};
ghost use Rattle.hack_recovery.specs.Started.{GivesEnv, GivesStart, GivesWords};
ghost use Rattle.hack_recovery.specs.Started.{SetsColoring, auto_coloring_of, start_fault_text, is_capable};
ghost use Rattle.hack_recovery.specs.Started.{is_unset as unset};

use crate::system::{System, Variable};
use hack_term::term::Coloring;
use hack_words::cli::Env;
use std::alloc::{AllocError, AllocFailed, Global};

/// Why a call can't begin.
#[derive(Clone, Copy, Debug, PartialEq, Eq)]
pub enum StartFault {
    Memory,
    /// An argument is not valid UTF-8.
    Words,
    /// A variable that a call reads is not valid UTF-8.
    Variables,
}

impl StartFault {
    /// The error message.
    pub fn text(self) -> &'static str
        ensures { result.now ≡ start_fault_text self }
    {
        match self {
            StartFault::Memory => "out of memory",
            StartFault::Words => "the words must be UTF-8",
            StartFault::Variables => "the variables of the environment must be UTF-8",
        }
    }
}

impl From<AllocError> for StartFault {
    ghost use Rattle.hack_recovery.specs.declared.started.StartFault.TheVariants.{Memory};

    ghost from_gives = { λ _ e. e ≡ Memory };

    fn from(_e: AllocError) -> StartFault {
        StartFault::Memory
    }
}

impl<T: Drop> From<AllocFailed<T>> for StartFault {
    ghost use Rattle.hack_recovery.specs.declared.started.StartFault.TheVariants.{Memory};

    ghost from_gives = { λ _ e. e ≡ Memory };

    fn from(_e: AllocFailed<T>) -> StartFault {
        StartFault::Memory
    }
}

/// What a call is started with.
#[derive(Drop)]
pub struct Started {
    /// The arguments after the program's name.
    pub words: Vec<String>,
    pub env: Env,
}

impl Started {
    /// Reads what a call is started with. How lines are coloured is set first, so that an error is
    /// shown in the same way; then the arguments are read, and then the environment.
    pub fn of<S: System>(
        alloc: Global,
        system: &S,
        is_terminal: bool,
        coloring: &mut Coloring,
    ) -> Result<Started, StartFault>
        ensures started { GivesStart S.tells (S.shown system.now) result }
        ensures coloring { S.tells → SetsColoring (auto_coloring_of is_terminal (S.shown system.now))
            coloring.old coloring.new result }
        ensures plain { is_terminal ≡ false → coloring.old ≡ Auto → coloring.new ≡ Auto }
    {
        *coloring = auto_coloring(system, is_terminal)?;
        Ok(Started {
            words: words_of(alloc, system)?,
            env: env_of(alloc, system)?,
        })
    }
}

/// The arguments after the program's name.
pub fn words_of<S: System>(alloc: Global, system: &S) -> Result<Vec<String>, StartFault>
    ensures { GivesWords S.tells (S.shown system.now) result }
{
    match system.arguments(alloc)? {
        Some(mut all) => {
            if !all.is_empty() {
                all.remove(0);
            }
            Ok(all)
        }
        None => Err(StartFault::Words),
    }
}

/// The environment that a call reads.
pub fn env_of<S: System>(alloc: Global, system: &S) -> Result<Env, StartFault>
    ensures { GivesEnv S.tells (S.shown system.now) result }
{
    let term_color = text_of(system, "CARGO_TERM_COLOR")?;
    let github_actions = is_given(system, "GITHUB_ACTIONS")?;
    let deny_warnings = is_given(system, "CARGO_HACK_DENY_WARNINGS")?;
    let source = text_of(system, "CARGO_HACK_CARGO_SRC")?;
    let cargo = text_of(system, "CARGO")?;
    let rustup = text_of(system, "CARGO_HACK_RUSTUP")?;
    let by_guard = is_given(system, "CARGO_HACK_GUARD")?;
    Ok(Env {
        term_color,
        github_actions,
        deny_warnings,
        cargo: text_or(alloc, source.or(cargo), "cargo")?,
        rustup: text_or(alloc, rustup, "rustup")?,
        current_dir: text_or(alloc, system.current_dir()?, "")?,
        by_guard,
    })
}

/// The text of a variable, if it is set.
fn text_of<S: System>(system: &S, name: &str) -> Result<Option<String>, StartFault>
    ensures { GivesText S.tells ((S.shown system.now).variable name.now) result }
{
    match system.variable(name)? {
        Variable::Unset => Ok(None),
        Variable::Text(text) => Ok(Some(text)),
        Variable::NotText => Err(StartFault::Variables),
    }
}

/// Whether a variable is set, to any text.
fn is_given<S: System>(system: &S, name: &str) -> Result<bool, StartFault>
    ensures { GivesFlag S.tells ((S.shown system.now).variable name.now) result }
{
    Ok(text_of(system, name)?.is_some())
}

fn text_or(alloc: Global, text: Option<String>, other: &str) -> Result<String, AllocError>
    ensures { IfOk result (λ chosen. string_bytes chosen
        ≡ unwrap_or (optional_text text) other.now) }
{
    match text {
        Some(text) => Ok(text),
        None => String::from_str(alloc, other),
    }
}

/// How lines are coloured until the command line says otherwise: on a terminal that can show it,
/// unless `NO_COLOR` is set.
pub fn auto_coloring<S: System>(system: &S, is_terminal: bool) -> Result<Coloring, AllocError>
    ensures told { IfOk result (λ coloring. S.tells
        → coloring ≡ auto_coloring_of is_terminal (S.shown system.now)) }
    ensures plain { is_terminal ≡ false → IfOk result (λ coloring. coloring ≡ Auto) }
{
    if is_terminal
        && can_color(&system.variable("TERM")?)
        && is_unset(&system.variable("NO_COLOR")?)
    {
        return Ok(Coloring::Always);
    }
    Ok(Coloring::Auto)
}

/// Whether a terminal with this `TERM` can show colours.
fn can_color(term: &Variable) -> bool
    ensures { result ≡ is_capable (state_of term.now) }
{
    match term {
        Variable::Text(name) => name.as_str() != "dumb",
        Variable::Unset | Variable::NotText => false,
    }
}

fn is_unset(variable: &Variable) -> bool
    ensures { result ≡ unset (state_of variable.now) }
{
    match variable {
        Variable::Unset => true,
        Variable::Text(_) | Variable::NotText => false,
    }
}
