//! A call of which it isn't known whether an interrupted one left anything, since a look at a file
//! failed.

ghost use Rattle.std.specs.Prelude.{◌≡◌, ℕ, IfSome, false, not, true};
ghost use Rattle.hack_base.specs.Names.{names_of};
ghost use Rattle.hack_base.specs.Streams.{Stream, WritesText, stream_of};
ghost use Rattle.hack_words.specs.Edits.{is_change};
ghost use Rattle.hack_recovery.specs.CallCourses.{PerformsUnjournaled};
ghost use Rattle.hack_recovery.specs.GuardEvents.{GuardsView};
ghost use Rattle.hack_recovery.specs.LockEvents.{LocksView};
ghost use Rattle.hack_recovery.specs.Scenes.{scene_beside, scene_with};
ghost use Rattle.hack_recovery.specs.Telling.{SaysUnseen, SaysUnsure};
ghost use Rattle.hack_recovery.specs.Texts.{unseen_text, unsure_text};
ghost use Rattle.hack_run.specs.Lanes.{IsLaneCall};
ghost use Rattle.hack_run.specs.Readings.{IsEarlyReading};
ghost use Rattle.hack_files.specs.View.{FilesView, files_view};
ghost use Rattle.hack_run.specs.Worlds.{IsSameHost, IsStatus, host_view};
ghost use Rattle.hack_term.specs.Lines.{error_line, warning_line};

use crate::asked::Asked;
use crate::unjournaled::unjournaled;
use hack_base::writes::Sink;
use hack_files::fs::Files;
use hack_files::reason::tell_reason;
use hack_run::host::Host;
use hack_starts::starts::Starts;
use hack_term::term::Term;

/// Refuses a call that would change manifests, and performs any other, after a warning. `path` is
/// what can't be looked at.
pub(crate) fn blindly<F: Files, C: Starts, O: Sink, E: Sink>(
    words: &[String],
    asked: Asked,
    path: &str,
    files: &mut F,
    host: &mut Host<'_, C, O, E>,
) -> u8
    requires { IfSome asked.reading (IsEarlyReading host.old.env.now (names_of words.now)) }
    ensures host { IsSameHost host.old host.new }
    ensures status { IsStatus host.old.env.now.deny_warnings
        (host_view C.Caller O.Sink host.new) result }
    ensures refused { is_change asked.edits ≡ true → (files.new ≡ files.old)
        × (host_view C.Caller O.Sink host.new ≡ record (host_view C.Caller O.Sink host.old)
        { term = record host.old.term.now { error = true } }) }
    ensures said { is_change asked.edits ≡ true
        → SaysUnseen host.old.term.now.coloring path.now
        (stream_of E.Sink host.old.err.now) (stream_of E.Sink host.new.err.now) }
    ensures still { is_change asked.edits ≡ true
        → (host.new.caller.now ≡ host.old.caller.now) × (host.new.out.now ≡ host.old.out.now) }
    ensures runs { is_change asked.edits ≡ false → (warned : Stream)
        × SaysUnsure host.old.term.now.coloring path.now (stream_of E.Sink host.old.err.now) warned
        × ((lockfiles : FilesView) (unkept : ℕ) (locks : LocksView) (guards : GuardsView)
        → PerformsUnjournaled F.Files C.tells (names_of words.now) host.old.env.now
        (scene_with (files_view F.Files files.old) (record host.old.term.now { warn = true }) warned
        (scene_beside C.Caller O.Sink E.Sink (files_view F.Files files.old) lockfiles unkept
        locks guards host.old))
        (scene_beside C.Caller O.Sink E.Sink (files_view F.Files files.new) lockfiles unkept
        locks guards host.new)) }
    ensures in_lanes { is_change asked.edits ≡ false → IsLaneCall C.did C.course C.tells C.calls
        (not host.new.term.now.error) F.tells (names_of words.now) host.old.env.now
        (F.bytes_at files.old) host.old.caller.now host.new.caller.now }
{
    tell_reason(host.alloc, files, host.term, host.err);
    if asked.edits.is_change() {
        refuse(path, host.term, host.err);
        return host.status();
    }
    warn(path, host.term, host.err);
    unjournaled(words, asked.reading, files, host)
}

/// Reports that this path can't be looked at, as an error.
fn refuse<E: Sink>(path: &str, term: &mut Term, err: &mut E)
    ensures noted { term.new ≡ record term.old { error = true } }
    ensures said { WritesText (error_line term.old.coloring (unseen_text path.now))
        (stream_of E.Sink err.old) (stream_of E.Sink err.new) }
{
    let _ = term.error_of("failed to read from file `", path, "`", err);
}

/// Warns that this path can't be looked at.
fn warn<E: Sink>(path: &str, term: &mut Term, err: &mut E)
    ensures noted { term.new ≡ record term.old { warn = true } }
    ensures said { WritesText (warning_line term.old.coloring (unsure_text path.now))
        (stream_of E.Sink err.old) (stream_of E.Sink err.new) }
{
    let after = "`: edits of an interrupted call may stand";
    let _ = term.warn_of("failed to read from file `", path, after, err);
}
