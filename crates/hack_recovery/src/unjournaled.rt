//! A call without a journal.

ghost use Rattle.std.specs.Prelude.{ℕ, IfSome, not};
ghost use Rattle.hack_base.specs.Names.{names_of};
ghost use Rattle.hack_recovery.specs.CallCourses.{PerformsUnjournaled};
ghost use Rattle.hack_recovery.specs.GuardEvents.{GuardsView};
ghost use Rattle.hack_recovery.specs.LockEvents.{LocksView};
ghost use Rattle.hack_recovery.specs.Scenes.{scene_beside};
ghost use Rattle.hack_run.specs.Lanes.{IsLaneCall};
ghost use Rattle.hack_run.specs.Readings.{IsEarlyReading};
ghost use Rattle.hack_files.specs.View.{FilesView, files_view};
ghost use Rattle.hack_run.specs.Worlds.{IsSameHost, IsStatus, host_view};

use hack_base::writes::Sink;
use hack_files::fs::Files;
use hack_run::host::Host;
use hack_run::reading::Reading;
use hack_run::run::run;
use hack_starts::starts::Starts;

/// Performs a call without a journal, and returns its exit status.
#[tactic(auto, using(hack_run::proofs::ReadingLemmas::some_or_refusal))]
pub(crate) fn unjournaled<F: Files, C: Starts, O: Sink, E: Sink>(
    words: &[String],
    reading: Option<Reading>,
    files: &mut F,
    host: &mut Host<'_, C, O, E>,
) -> u8
    requires { IfSome reading (IsEarlyReading host.old.env.now (names_of words.now)) }
    ensures host { IsSameHost host.old host.new }
    ensures status { IsStatus host.old.env.now.deny_warnings
        (host_view C.Caller O.Sink host.new) result }
    ensures runs { (lockfiles : FilesView) (unkept : ℕ) (locks : LocksView) (guards : GuardsView)
        → PerformsUnjournaled F.Files C.tells (names_of words.now) host.old.env.now
        (scene_beside C.Caller O.Sink E.Sink (files_view F.Files files.old) lockfiles unkept
        locks guards host.old)
        (scene_beside C.Caller O.Sink E.Sink (files_view F.Files files.new) lockfiles unkept
        locks guards host.new) }
    ensures in_lanes { IsLaneCall C.did C.course C.tells C.calls (not host.new.term.now.error)
        F.tells (names_of words.now) host.old.env.now (F.bytes_at files.old)
        host.old.caller.now host.new.caller.now }
{
    run(words, reading, files, host)
}
