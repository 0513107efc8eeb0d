//! A whole call of `cargo hack`, and the plan of a loaded call, given to a runner.

ghost use Rattle.std.specs.Prelude.{◌≡◌, Bool, false, true};
ghost use Rattle.hack_base.specs.Names.{names_of};
ghost use Rattle.hack_run.specs.Lanes.{IsLaneCall};
ghost use Rattle.cargo_hack.specs.WholeCalls.{IsWholeCall};

use hack_base::writes::Sink;
pub use hack_drive::drive::{Hunt, Teller, drive_context, hunt_context, search_context};
use hack_files::fs::Files;
pub use hack_journaled::journaled::run_journaled;
pub use hack_run::host::Host;
pub use hack_run::run::run as run_on_host;
use hack_starts::starts::Starts;
use hack_term::term::Term;
use hack_words::cli::Env;
use std::alloc::Global;

/// Performs a call with these arguments, the first of which is `hack`, and returns its exit status:
/// makes a `Host` of what the call reaches, and hands it on.
pub fn run<'a, F: Files, C: Starts, O: Sink, E: Sink>(
    alloc: Global,
    words: &[String],
    env: &'a Env,
    term: &'a mut Term,
    files: &mut F,
    runner: &'a mut C,
    out: &'a mut O,
    err: &'a mut E,
) -> u8
    ensures call { (fails : Bool) × IsWholeCall F.Files C.Caller O.Sink E.Sink
        (names_of words.now) env.now
        (record {
          files = files.old;
          caller = runner.old;
          out = out.old;
          err = err.old;
          term = term.old;
          fails = false;
        })
        (record {
          files = files.new;
          caller = runner.new;
          out = out.new;
          err = err.new;
          term = term.new;
          fails = fails;
        }) result }
    ensures lanes { term.new.error ≡ false → IsLaneCall C.did C.course C.tells C.calls true
        F.tells (names_of words.now) env.now (F.bytes_at files.old) runner.old runner.new }
    ensures in_lanes { IsLaneCall C.did C.course C.tells C.calls false F.tells
        (names_of words.now) env.now (F.bytes_at files.old) runner.old runner.new }
{
    let mut host = Host::new(alloc, env, term, runner, out, err);
    run_on_host(words, None, files, &mut host)
}
