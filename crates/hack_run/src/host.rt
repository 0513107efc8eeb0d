//! What a call reaches of the world.

ghost use Rattle.std.specs.Prelude.{◌≡◌, false};
ghost use Rattle.hack_run.specs.Worlds.{IsStatus, host_view};

use hack_base::writes::Sink;
use hack_process::process::Caller;
use hack_term::term::Term;
use hack_words::cli::Env;
use std::alloc::Global;

/// What a call reaches of the world, but for files: these stand beside it, since a call with a
/// journal has its own.
#[derive(Drop)]
pub struct Host<'a, C: Caller, O: Sink, E: Sink> {
    pub alloc: Global,
    pub env: &'a Env,
    /// How messages look, and whether an error or a warning was reported.
    pub term: &'a mut Term,
    /// Who runs programs.
    pub caller: &'a mut C,
    /// Where output goes.
    pub out: &'a mut O,
    /// Where messages go.
    pub err: &'a mut E,
    /// Whether a search found what fails: features that fail together, or a package whose greatest
    /// version fails. That is no error of the call, but its exit status is 1.
    pub fails: bool,
}

impl<'a, C: Caller, O: Sink, E: Sink> Host<'a, C, O, E> {
    /// A host of these, for which nothing was searched yet.
    pub fn new(
        alloc: Global,
        env: &'a Env,
        term: &'a mut Term,
        caller: &'a mut C,
        out: &'a mut O,
        err: &'a mut E,
    ) -> Host<'a, C, O, E>
        ensures env { result.env.now ≡ env.now }
        ensures term { (result.term.ghost_name ≡ term.entry.ghost_name)
            × (result.term.now ≡ term.entry.now) }
        ensures caller { (result.caller.ghost_name ≡ caller.entry.ghost_name)
            × (result.caller.now ≡ caller.entry.now) }
        ensures out { (result.out.ghost_name ≡ out.entry.ghost_name)
            × (result.out.now ≡ out.entry.now) }
        ensures err { (result.err.ghost_name ≡ err.entry.ghost_name)
            × (result.err.now ≡ err.entry.now) }
        ensures fails { result.fails ≡ false }
    {
        Host {
            alloc,
            env,
            term,
            caller,
            out,
            err,
            fails: false,
        }
    }

    /// The exit status: 1 where a search found what fails, after an error, or after a warning where
    /// warnings are denied; else 0.
    pub fn status(&self) -> u8
        ensures { IsStatus self.now.env.now.deny_warnings
            (host_view C.Caller O.Sink self.now) result }
    {
        if self.fails {
            return 1;
        }
        self.term.status(self.env.deny_warnings)
    }
}
