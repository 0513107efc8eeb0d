//! A whole call of `cargo hack`: does what its command line asks for, and reports on the way.

ghost use Rattle.std.specs.Prelude.{◌≡◌, ◌⊎◌, IsErr, OnOk, false, true, IfSome, map, string_bytes};
ghost use Rattle.std.specs.Io.KnownBytes.{Appends};
ghost use Rattle.hack_base.specs.Names.{names_of};
ghost use Rattle.hack_base.specs.Notes.{note_of};
ghost use Rattle.hack_base.specs.Streams.{stream_of};
ghost use Rattle.hack_base.specs.Writes.{AppendsFront};
ghost use Rattle.hack_files.specs.Files.{KeepsAllBut};
ghost use Rattle.hack_process.specs.Calls.{IsSuccess, MayAdd};
ghost use Rattle.hack_process.specs.Faults.{GotAnswer};
ghost use Rattle.hack_run.specs.CallChanges.{IsChangeTrace, ObeysAndChanges};
ghost use Rattle.hack_run.specs.CallTrace.{IsCallTrace, Obeys, colored_by, listing_asked};
ghost use Rattle.hack_run.specs.CallTrace.{warned_by};
ghost use Rattle.hack_run.specs.Lanes.{IsLaneCall, ObeysInLanes};
ghost use Rattle.hack_run.specs.LastingEdits.{LeavesAtMostEdits, ObeysAndLeaves};
ghost use Rattle.hack_run.specs.Questions.{rustup_asked};
ghost use Rattle.hack_run.specs.Readings.{IsEarlyReadingOrRefusal};
ghost use Rattle.hack_run.specs.TemporaryEdits.{BringsBack, ComesBack, IsClean, RestoresEdits};
ghost use Rattle.hack_run.specs.Internal.{IsUntoldRefusal};
ghost use Rattle.hack_run.specs.Refusals.{AreRefused, ReportsRefusal, WritesError};
ghost use Rattle.hack_run.specs.Shown.{ComesOfListing, SaysCall, SaysParsed, SaysRead, SaysText};
ghost use Rattle.hack_run.specs.Shown.{SaysUnread, looks_of, scene_on};
ghost use Rattle.hack_run.specs.Standing.{Between, EditsStand, ObeysAndEdits};
ghost use Rattle.hack_files.specs.View.{files_view};
ghost use Rattle.hack_run.specs.Worlds.{IsSameHost, IsStatus, host_view, world_of};

use crate::fault::RunFault;
use crate::host::Host;
use crate::reading::{Reading, reading_of};
use crate::stages::perform;
use crate::tell::tell_end;
use hack_base::notice::Notice;
use hack_base::writes::{Sink, write_front};
use hack_drive::notices::tell_all;
use hack_files::fs::Files;
use hack_process::process::{Caller, ProcessBuilder, ProcessFault};
use hack_starts::starts::Starts;
use hack_term::term::{Coloring, Term};
use hack_words::cli::{Args, Env, Parsed};
use std::alloc::Global;

/// Performs a call with these arguments, the first of which is `hack`, and returns its exit status.
/// `reading` is what they are read into, where that is known already. Messages go to the host's
/// `err`, the line of an error last. Under `--color auto` the colouring is the one that its
/// terminal has.
pub fn run<F: Files, C: Starts, O: Sink, E: Sink>(
    words: &[String],
    reading: Option<Reading>,
    files: &mut F,
    host: &mut Host<'_, C, O, E>,
) -> u8
    // What is read already is what these arguments are read into before anything is asked.
    requires { IfSome reading (IsEarlyReadingOrRefusal host.old.env.now (names_of words.now)) }
    ensures host { IsSameHost host.old host.new }
    ensures status { IsStatus host.old.env.now.deny_warnings
        (host_view C.Caller O.Sink host.new) result }

    // What each single call of the files keeps (`F.stays`) is kept by all of them together.
    ensures stays { F.stays files.old files.new }

    // A command line that is refused whatever rustup answers is reported as an error, and then
    // nothing was called, or just rustup for its version.
    ensures refused { AreRefused host.old.env.now (names_of words.now)
        → ReportsRefusal C.tells host.old.env.now
        (host_view C.Caller O.Sink host.old) (host_view C.Caller O.Sink host.new) }

    // And the line of an error is all that is written to `err`, coloured as the terminal is, for
    // which `coloring_asked` says what the command line asks for.
    ensures told { AreRefused host.old.env.now (names_of words.now)
        → WritesError host.old.term.now.coloring
        (stream_of E.Sink host.old.err.now) (stream_of E.Sink host.new.err.now) }

    // Where no error was reported, what the command line asks for was done: the calls end with
    // those of the whole schedule of the plan, which follows from what this call asked and read, or
    // of searches that came to their end. It is noted that something fails just where that was so
    // before, or a search found a set that fails, or a package's greatest version does. A list wrote
    // just the lines of that schedule. A warning is noted just where one was before, or where a
    // notice on the command line, on what was loaded or on the plan counts as one, a search for
    // conflicts isn't complete, or one for versions finds that a package with a `rust-version` fails
    // before its least version. Under `--remove-dev-deps` each manifest that is edited holds its edit, and all
    // else what it held.
    ensures done { host.new.term.now.error ≡ false → C.tells
        → IsCallTrace true F.tells (names_of words.now) host.old.env.now
        (world_of F.Files C.Caller O.Sink files.old host.old)
        (world_of F.Files C.Caller O.Sink files.new host.new) }

    // Then files that show their changes show just these, in order: the lockfile is written back by
    // the questions, where stable's cargo was asked for metadata; each manifest that is edited is
    // written once; and unless edits stay, what they changed and the lockfile are written back.
    ensures traced { host.new.term.now.error ≡ false → C.tells → F.whole
        → IsChangeTrace F.tells (names_of words.now) host.old.env.now
        (world_of F.Files C.Caller O.Sink files.old host.old)
        (world_of F.Files C.Caller O.Sink files.new host.new) }

    // Then each manifest that the arguments have edited held its edit once, and every other path
    // what it held: what is performed doesn't touch them.
    ensures stood { host.new.term.now.error ≡ false
        → EditsStand (Between F.Files files.old files.new) F.tells C.tells
        (names_of words.now) host.old.env.now (F.bytes_at files.old)
        (C.calls host.old.caller.now) }

    // Whatever comes of the call: after its questions the steps of one history of the plan, or of a
    // search, made just their calls, or no step made one; and a list printed nothing but the lines of the steps
    // that passed, in order, or the beginning of these lines.
    ensures made { C.tells → IsCallTrace false F.tells (names_of words.now) host.old.env.now
        (world_of F.Files C.Caller O.Sink files.old host.old)
        (world_of F.Files C.Caller O.Sink files.new host.new) }

    // The files are restored: unless the command line asks for edits that stay, each path holds
    // what it held, except for at most as many paths as calls of the files failed.
    ensures back { RestoresEdits host.old.env.now (names_of words.now) → F.tells
        → BringsBack (files_view F.Files files.old) (files_view F.Files files.new) }

    // And these are paths whose writes were refused in this call: no other failure leaves a path
    // changed.
    ensures spoilt { RestoresEdits host.old.env.now (names_of words.now)
        → KeepsAllBut (F.refuses files.old files.new) F.tells
        (F.bytes_at files.old) (F.bytes_at files.new) }

    // Whatever comes of the call, each path holds what it held, unless its own write was refused. Or
    // the arguments have manifests edited for good: then each of these holds its edit or what it
    // held, unless its own write was refused, and every other path what it held.
    ensures lasting { LeavesAtMostEdits (F.refuses files.old files.new) F.tells C.tells
        (names_of words.now) host.old.env.now (C.calls host.old.caller.now)
        (F.bytes_at files.old) (F.bytes_at files.new) }

    // A call of the files that failed is reported as an error: where none was reported, none
    // failed, and each path holds what it held, unless the command line asks for edits that stay.
    ensures clean { host.new.term.now.error ≡ false
        → IsClean (RestoresEdits host.old.env.now (names_of words.now)) F.tells
        (files_view F.Files files.old) (files_view F.Files files.new) }

    // Where no error was reported, runs of a plan were performed side by side, by the rules of lanes,
    // at most as many as `--parallel` asks for: their commands were started in order, each at most
    // once, and told in order; and none that was started is left.
    ensures lanes { host.new.term.now.error ≡ false → IsLaneCall C.did C.course C.tells C.calls
        true F.tells (names_of words.now) host.old.env.now (F.bytes_at files.old)
        host.old.caller.now host.new.caller.now }

    // Whatever comes of the call: nothing else was started, and none is left.
    ensures in_lanes { IsLaneCall C.did C.course C.tells C.calls false F.tells
        (names_of words.now) host.old.env.now (F.bytes_at files.old)
        host.old.caller.now host.new.caller.now }

    // Whatever comes of the call, just this is said, in this order: the notices on the command line,
    // on what was loaded, on edits and on the plan; what each step says; the report of the runs that
    // failed, and what only these have, or what a search found; and an error's line last. Each is
    // written whole, or its stream counted a failure for it.
    ensures shown { C.tells → SaysCall F.Files files.old files.new C.tells
        (names_of words.now) host.old.env.now
        (looks_of host.old.term.now) (looks_of host.new.term.now)
        (scene_on C.Caller O.Sink E.Sink host.old) (scene_on C.Caller O.Sink E.Sink host.new) }
{
    let env = host.env;
    let came = read(words, reading, files, host);
    tell_end(host.alloc, came, env, host.term, host.err);
    host.status()
}

/// Reads the command line, unless it is read already, and does what it asks for.
fn read<F: Files, C: Starts, O: Sink, E: Sink>(
    words: &[String],
    reading: Option<Reading>,
    files: &mut F,
    host: &mut Host<'_, C, O, E>,
) -> Result<(), RunFault>
    requires { IfSome reading (IsEarlyReadingOrRefusal host.old.env.now (names_of words.now)) }
    ensures host { IsSameHost host.old host.new }
    ensures stays { F.stays files.old files.new }
    ensures refused { AreRefused host.old.env.now (names_of words.now) → IsErr result
        × (C.tells → MayAdd (rustup_asked (string_bytes host.old.env.now.rustup))
        (C.calls host.old.caller.now) (C.calls host.new.caller.now)) }
    ensures told { AreRefused host.old.env.now (names_of words.now)
        → IsUntoldRefusal E.Sink result host.old host.new }
    ensures done { OnOk result (host.new.term.now.error ≡ false → C.tells
        → IsCallTrace true F.tells (names_of words.now) host.old.env.now
        (world_of F.Files C.Caller O.Sink files.old host.old)
        (world_of F.Files C.Caller O.Sink files.new host.new)) }
    ensures traced { OnOk result (host.new.term.now.error ≡ false → C.tells → F.whole
        → IsChangeTrace F.tells (names_of words.now) host.old.env.now
        (world_of F.Files C.Caller O.Sink files.old host.old)
        (world_of F.Files C.Caller O.Sink files.new host.new)) }
    ensures stood { OnOk result (EditsStand (Between F.Files files.old files.new) F.tells C.tells
        (names_of words.now) host.old.env.now (F.bytes_at files.old)
        (C.calls host.old.caller.now)) }
    ensures made { C.tells → IsCallTrace false F.tells (names_of words.now) host.old.env.now
        (world_of F.Files C.Caller O.Sink files.old host.old)
        (world_of F.Files C.Caller O.Sink files.new host.new) }
    ensures back { RestoresEdits host.old.env.now (names_of words.now) → F.tells
        → BringsBack (files_view F.Files files.old) (files_view F.Files files.new) }
    ensures spoilt { RestoresEdits host.old.env.now (names_of words.now)
        → KeepsAllBut (F.refuses files.old files.new) F.tells
        (F.bytes_at files.old) (F.bytes_at files.new) }
    ensures lasting { LeavesAtMostEdits (F.refuses files.old files.new) F.tells C.tells
        (names_of words.now) host.old.env.now (C.calls host.old.caller.now)
        (F.bytes_at files.old) (F.bytes_at files.new) }
    ensures clean { OnOk result (host.new.term.now.error ≡ false
        → IsClean (RestoresEdits host.old.env.now (names_of words.now)) F.tells
        (files_view F.Files files.old) (files_view F.Files files.new)) }
    ensures lanes { OnOk result (IsLaneCall C.did C.course C.tells C.calls true F.tells
        (names_of words.now) host.old.env.now (F.bytes_at files.old)
        host.old.caller.now host.new.caller.now) }
    ensures in_lanes { IsLaneCall C.did C.course C.tells C.calls false F.tells
        (names_of words.now) host.old.env.now (F.bytes_at files.old)
        host.old.caller.now host.new.caller.now }
    ensures shown { C.tells → ((files.new ≡ files.old)
        × SaysUnread result (names_of words.now) host.old.env.now
        (looks_of host.old.term.now) (looks_of host.new.term.now)
        (scene_on C.Caller O.Sink E.Sink host.old) (scene_on C.Caller O.Sink E.Sink host.new))
        ⊎ SaysRead F.Files files.old files.new result C.tells
        (names_of words.now) host.old.env.now
        (looks_of host.old.term.now) (looks_of host.new.term.now)
        (scene_on C.Caller O.Sink E.Sink host.old) (scene_on C.Caller O.Sink E.Sink host.new) }
{
    let env = host.env;
    match reading_of(
        host.alloc,
        words,
        reading,
        env,
        host.term.verbose,
        host.caller,
    )? {
        Reading::Accepted(parsed, notices) => obey(parsed, notices.as_slice(), files, host),
        Reading::Refused(fault) => Err(RunFault::Words(fault)),
    }
}

/// Does what a parsed command line asks for. The notices are those of parsing it.
fn obey<F: Files, C: Starts, O: Sink, E: Sink>(
    parsed: Parsed,
    notices: &[Notice],
    files: &mut F,
    host: &mut Host<'_, C, O, E>,
) -> Result<(), RunFault>
    ensures host { IsSameHost host.old host.new }
    ensures stays { F.stays files.old files.new }
    ensures done { OnOk result (host.new.term.now.error ≡ false → C.tells
        → Obeys true F.tells parsed host.old.env.now
        (warned_by parsed (map note_of notices.now) host.old.term.now.warn)
        (world_of F.Files C.Caller O.Sink files.old host.old)
        (world_of F.Files C.Caller O.Sink files.new host.new)) }
    ensures traced { OnOk result (host.new.term.now.error ≡ false → C.tells → F.whole
        → ObeysAndChanges F.tells parsed host.old.env.now
        (warned_by parsed (map note_of notices.now) host.old.term.now.warn)
        (world_of F.Files C.Caller O.Sink files.old host.old)
        (world_of F.Files C.Caller O.Sink files.new host.new)) }
    ensures stood { OnOk result (ObeysAndEdits (Between F.Files files.old files.new) F.tells C.tells
        parsed host.old.env.now (F.bytes_at files.old) (C.calls host.old.caller.now)) }
    ensures made { C.tells → Obeys false F.tells parsed host.old.env.now
        (warned_by parsed (map note_of notices.now) host.old.term.now.warn)
        (world_of F.Files C.Caller O.Sink files.old host.old)
        (world_of F.Files C.Caller O.Sink files.new host.new) }
    ensures back { ComesBack parsed → F.tells
        → BringsBack (files_view F.Files files.old) (files_view F.Files files.new) }
    ensures spoilt { ComesBack parsed → KeepsAllBut (F.refuses files.old files.new) F.tells
        (F.bytes_at files.old) (F.bytes_at files.new) }
    ensures lasting { ObeysAndLeaves (F.refuses files.old files.new) F.tells C.tells
        parsed host.old.env.now (C.calls host.old.caller.now)
        (F.bytes_at files.old) (F.bytes_at files.new) }
    ensures clean { OnOk result (host.new.term.now.error ≡ false
        → IsClean (ComesBack parsed) F.tells
        (files_view F.Files files.old) (files_view F.Files files.new)) }
    ensures lanes { OnOk result (ObeysInLanes C.did C.course C.tells C.calls true F.tells parsed
        host.old.env.now (F.bytes_at files.old) host.old.caller.now host.new.caller.now) }
    ensures in_lanes { ObeysInLanes C.did C.course C.tells C.calls false F.tells parsed
        host.old.env.now (F.bytes_at files.old) host.old.caller.now host.new.caller.now }
    ensures shown { C.tells → SaysParsed F.Files files.old files.new result
        C.tells parsed (map note_of notices.now) host.old.env.now
        (looks_of host.old.term.now) (looks_of host.new.term.now)
        (scene_on C.Caller O.Sink E.Sink host.old) (scene_on C.Caller O.Sink E.Sink host.new) }
{
    match parsed {
        Parsed::Args(args) => {
            dress(host.term, &args);
            tell_all(notices, host.term, host.err);
            perform(args, files, host)
        }
        Parsed::Print(text) => print(text.as_str(), host.out),
        Parsed::List => {
            tell_all(notices, host.term, host.err);
            list_commands(host.alloc, host.env, host.caller)
        }
    }
}

/// Sets the colouring and the verbosity of the terminal as the arguments say.
fn dress(term: &mut Term, args: &Args)
    ensures error { term.new.error ≡ term.old.error }
    ensures warn { term.new.warn ≡ term.old.warn }
    ensures verbose { term.new.verbose ≡ args.now.verbose }
    ensures coloring { term.new.coloring ≡ colored_by args.now.coloring term.old.coloring }
{
    term.verbose = args.verbose;
    if args.coloring != Coloring::Auto {
        term.coloring = args.coloring;
    }
}

/// Prints a text, or the beginning of it where a write fails.
fn print<O: Sink>(text: &str, out: &mut O) -> Result<(), RunFault>
    ensures all { OnOk result (Appends (O.contents out.old) (O.contents out.new) text.now) }
    ensures front { AppendsFront (O.contents out.old) (O.contents out.new) text.now }
    ensures shown { SaysText result text.now (stream_of O.Sink out.old) (stream_of O.Sink out.new) }
{
    match write_front(text, out) {
        Ok(()) => Ok(()),
        Err(_) => Err(RunFault::Unprinted),
    }
}

/// Has cargo list its commands.
fn list_commands<C: Caller>(alloc: Global, env: &Env, caller: &mut C) -> Result<(), RunFault>
    ensures done { OnOk result (C.tells → GotAnswer (λ answer. IsSuccess answer.end)
        (listing_asked (string_bytes env.now.cargo)) (C.calls caller.old) (C.calls caller.new)) }
    ensures made { C.tells → MayAdd (listing_asked (string_bytes env.now.cargo))
        (C.calls caller.old) (C.calls caller.new) }
    ensures comes { C.tells → ComesOfListing C.tells (string_bytes env.now.cargo)
        (string_bytes env.now.current_dir) result (C.calls caller.old) (C.calls caller.new) }
    ensures course { C.course caller.old caller.new }
{
    let mut command = ProcessBuilder::new(alloc, env.cargo.as_str())?;
    command.arg("--list")?;
    match command.run(alloc, caller, env.current_dir.as_str()) {
        Ok(()) => Ok(()),
        Err(ProcessFault::Memory) => Err(RunFault::Memory),
        Err(fault) => Err(RunFault::Process(fault)),
    }
}
