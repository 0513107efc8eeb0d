//! A call of the program, from what the system tells of it.

ghost use Rattle.std.specs.Prelude.{◌≡◌, not};
ghost use Rattle.hack_files.specs.View.{files_view};
ghost use Rattle.hack_recovery.specs.LaneCalls.{ProgramCallsInLanes};
ghost use Rattle.hack_recovery.specs.ProgramCalls.{IsProgramCall, IsSameOutside, colored};
ghost use Rattle.hack_recovery.specs.ProgramCalls.{scene_outside};
ghost use Rattle.hack_run.specs.CallTrace.{colored_by};

use crate::guards::Guards;
use crate::keepers::Keepers;
use crate::locks::Locks;
use crate::perform::perform;
use crate::started::{StartFault, Started};
use crate::system::System;
use hack_base::writes::Sink;
use hack_files::fs::{Files, JournalFiles};
use hack_journal::apart::Apart;
use hack_journal::journaled::Journaled;
use hack_journal::unkept::Unkept;
use hack_process::process::Caller;
use hack_run::host::Host;
use hack_starts::starts::Starts;
use hack_term::term::{Coloring, Term};
use hack_words::cli::coloring_asked;
use std::alloc::Global;

/// What a call reaches of the world before its environment is read: all of a `Host` but that.
#[derive(Drop)]
pub struct Outside<'a, C: Caller, O: Sink, E: Sink> {
    /// How messages look, and whether an error or a warning was reported.
    pub term: &'a mut Term,
    /// Who runs programs.
    pub caller: &'a mut C,
    /// Where output goes.
    pub out: &'a mut O,
    /// Where messages go.
    pub err: &'a mut E,
    /// Whether messages go to a terminal.
    pub is_terminal: bool,
    /// Whether a search found what fails, as in a `Host`.
    pub fails: bool,
}

/// Performs the call whose arguments and environment the system tells, as `perform` does, and
/// returns its exit status, the files, the lockfiles and `unkept`. Where arguments or environment
/// can't be read, that is reported, and nothing else is done. All lines are coloured as the
/// arguments ask, else the environment; so is the error of a command line that breaks a rule behind
/// the one on colours.
pub fn call<
    S: System,
    F: JournalFiles,
    L: Files,
    U: Unkept,
    K: Locks,
    G: Guards,
    C: Starts,
    O: Sink,
    E: Sink,
>(
    alloc: Global,
    system: &S,
    files: F,
    lockfiles: L,
    unkept: U,
    keepers: &mut Keepers<K, G>,
    outside: &mut Outside<'_, C, O, E>,
) -> (u8, F, L, U)
    ensures outside { IsSameOutside outside.old outside.new }
    ensures goes { IsProgramCall F.Files L.Files U.Unkept ⟦<Apart<Journaled<F, U>, L> as Files>⟧
        S.tells C.tells K.tells G.tells
        (K.real keepers.old.locks) (S.shown system.now) outside.old.is_terminal
        (scene_outside F.Files L.Files U.Unkept C.Caller O.Sink E.Sink files lockfiles unkept
        (K.shown keepers.old.locks) (G.shown keepers.old.guards) outside.old)
        (scene_outside F.Files L.Files U.Unkept C.Caller O.Sink E.Sink result.1 result.2 result.3
        (K.shown keepers.new.locks) (G.shown keepers.new.guards) outside.new) result.0 }

    // Commands were started by the rules of lanes alone, and none that was started is left.
    ensures in_lanes { ProgramCallsInLanes F.Files L.Files C.did C.course C.tells C.calls S.tells
        K.tells (K.real keepers.old.locks) (S.shown system.now) (not outside.new.term.now.error)
        (files_view F.Files files, files_view L.Files lockfiles)
        outside.old.caller.now outside.new.caller.now }
{
    let is_terminal = outside.is_terminal;
    let came = Started::of(alloc, system, is_terminal, &mut outside.term.coloring);
    let Started { words, env } = match came {
        Ok(started) => started,
        Err(fault) => {
            let _ = outside.term.error(fault.text(), outside.err);
            return (1, files, lockfiles, unkept);
        }
    };
    match coloring_asked(alloc, &words, &env) {
        Ok(asked) => color(asked, outside.term),
        Err(_) => {
            let _ = outside.term.error(StartFault::Memory.text(), outside.err);
            return (1, files, lockfiles, unkept);
        }
    }
    let mut host = Host::new(
        alloc,
        &env,
        outside.term,
        outside.caller,
        outside.out,
        outside.err,
    );
    host.fails = outside.fails;
    let ended = perform(&words, files, lockfiles, unkept, keepers, &mut host);
    outside.fails = host.fails;
    ended
}

/// Colours lines as is asked. Under `auto` they stay as they are.
fn color(asked: Coloring, term: &mut Term)
    ensures { term.new ≡ colored (colored_by asked term.old.coloring) term.old }
{
    if asked != Coloring::Auto {
        term.coloring = asked;
    }
}
