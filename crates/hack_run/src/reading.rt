//! What a command line is read into, before anything is asked or after rustup was.

ghost use Rattle.std.specs.Prelude.{◌≡◌, IfOk, IfSome, None, false, string_bytes};
ghost use Rattle.hack_base.specs.Names.{names_of};
ghost use Rattle.hack_process.specs.Calls.{MayAdd};
ghost use Rattle.hack_words.specs.ParseAnswers.{around_of};
ghost use Rattle.hack_words.specs.Start.{wants_rustup as rustup_wanted};
ghost use Rattle.hack_run.specs.Questions.{rustup_asked};
ghost use Rattle.hack_run.specs.Readings.{IsEarlyReadingOrRefusal, IsReading, IsReadingOrRefusal};
ghost use Rattle.hack_run.specs.Internal.{ReadsAfterRustup};

use crate::ask::rustup_for;
use hack_base::notice::Notice;
use hack_process::process::Caller;
use hack_versions::rustup::Rustup;
use hack_words::cli::{Args, CliFault, Env, Parsed};
use std::alloc::{AllocError, Global};

/// What a command line is read into.
#[derive(Drop)]
pub enum Reading {
    /// What it asks for, and the notices on it.
    Accepted(Parsed, Vec<Notice>),
    /// The error of the first rule that it breaks, or that memory was refused.
    Refused(CliFault),
}

impl Reading {
    /// What these arguments are read into, with what is known of rustup.
    pub fn of(alloc: Global, words: &[String], env: &Env, rustup: Rustup) -> Reading
        ensures { IsReading (around_of env.now rustup) (names_of words.now) result }
    {
        match Args::parse(alloc, words, env, rustup) {
            Ok(answer) => {
                let (parsed, notices) = answer;
                Reading::Accepted(parsed, notices)
            }
            Err(fault) => Reading::Refused(fault),
        }
    }
}

/// What the arguments are read into, where that isn't known already: rustup is asked for its
/// version first, where an argument needs it.
#[tactic(auto, using(crate::proofs::ReadingLemmas::or_refusal))]
pub(crate) fn reading_of<C: Caller>(
    alloc: Global,
    words: &[String],
    known: Option<Reading>,
    env: &Env,
    verbose: bool,
    caller: &mut C,
) -> Result<Reading, AllocError>
    requires { IfSome known (IsEarlyReadingOrRefusal env.now (names_of words.now)) }
    ensures may { C.tells → MayAdd (rustup_asked (string_bytes env.now.rustup))
        (C.calls caller.old) (C.calls caller.new) }
    ensures read { IfOk result (ReadsAfterRustup IsReadingOrRefusal C.tells (names_of words.now)
        env.now verbose (C.calls caller.old) (C.calls caller.new)) }
    // Of what it reads itself it says which error refuses it.
    ensures own { known ≡ None → IfOk result (ReadsAfterRustup IsReading C.tells
        (names_of words.now) env.now verbose (C.calls caller.old) (C.calls caller.new)) }
    ensures unneeded { rustup_wanted (names_of words.now) ≡ false → caller.new ≡ caller.old }
    ensures course { C.course caller.old caller.new }
{
    if let Some(reading) = known {
        return Ok(reading);
    }
    let rustup = rustup_for(alloc, words, env, verbose, caller)?;
    Ok(Reading::of(alloc, words, env, rustup))
}
