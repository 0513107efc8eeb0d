//! What a call says before it is performed: whose edits may stand, why nothing is restored, and
//! that no guard watches.

ghost use Rattle.hack_base.specs.Streams.{stream_of};
ghost use Rattle.hack_recovery.specs.Telling.{SaysStanding, SaysUnrestored, SaysWatched};

use crate::admit::Standing;
use hack_base::writes::Sink;
use hack_term::term::Term;

/// Says whose edits may stand while the call goes on.
pub(crate) fn tell_standing<E: Sink>(standing: Standing, term: &mut Term, err: &mut E)
    ensures { SaysStanding standing term.old term.new
        (stream_of E.Sink err.old) (stream_of E.Sink err.new) }
{
    match standing {
        Standing::Nobodys => {}
        Standing::Anothers => {
            let text =
                "another call is editing the manifests of this workspace: this one sees its edits";
            let _ = term.info(text, err);
        }
        Standing::Interrupted => {
            let text =
                "edits of an interrupted call may stand: the folder of the workspace can't be locked";
            let _ = term.warn(text, err);
        }
    }
}

/// Says that nothing is left to restore, or, as an error, that another call has what is; a guard
/// says nothing, since nobody reads it.
pub(crate) fn tell_unrestored<E: Sink>(by_guard: bool, is_left: bool, term: &mut Term, err: &mut E)
    ensures { SaysUnrestored by_guard is_left term.old term.new
        (stream_of E.Sink err.old) (stream_of E.Sink err.new) }
{
    if by_guard {
        return;
    }
    if is_left {
        let text = "another call is editing the manifests of this workspace, and restores them";
        let _ = term.error(text, err);
        return;
    }
    let _ = term.info("nothing is left to restore", err);
}

/// Says, where no guard watches, that nobody restores the manifests where this call ends early.
pub(crate) fn tell_watch<E: Sink>(watches: bool, term: &Term, err: &mut E)
    ensures { SaysWatched term.now.coloring watches
        (stream_of E.Sink err.old) (stream_of E.Sink err.new) }
{
    if watches {
        return;
    }
    let text =
        "no guard could be started: where this call is interrupted, the next one restores the manifests";
    let _ = term.info(text, err);
}
