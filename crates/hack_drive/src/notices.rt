//! Notices for the user. An error of writing them is ignored.

ghost use Rattle.std.specs.Prelude.{◌≡◌, map};
ghost use Rattle.hack_base.specs.Notes.{note_of};
ghost use Rattle.hack_base.specs.Streams.{WritesAll, stream_of};
ghost use Rattle.hack_drive.specs.Shown.{note_lines};
ghost use Rattle.hack_drive.specs.Warnings.{after_notes};

use hack_base::notice::Notice;
use hack_base::writes::Sink;
use hack_term::term::Term;

/// Prints notices, in order, and notes a warning where one of them counts as such.
pub fn tell_all<E: Sink>(notices: &[Notice], term: &mut Term, err: &mut E)
    ensures noted { term.new ≡ after_notes term.old (map note_of notices.now) }
    ensures shown { WritesAll (note_lines term.old.coloring (map note_of notices.now))
        (stream_of E.Sink err.old) (stream_of E.Sink err.new) }
{
    for notice in notices {
        let _ = term.notice(notice, err);
    }
}
