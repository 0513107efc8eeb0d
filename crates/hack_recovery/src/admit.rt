//! Whether a call may go on, by who has the lock of its workspace's folder.

ghost use Rattle.std.specs.Prelude.{◌≡◌};
ghost use Rattle.hack_recovery.specs.Admission.{IsAdmitted, needs_lock, way_of};

use crate::fault::CallFault;
use crate::locks::{Holder, Locks};
use hack_words::cli::Edits;
use std::alloc::Global;

/// How a call may go on.
#[derive(Clone, Copy, Debug, PartialEq, Eq)]
pub enum Way {
    /// Without a journal, and without looking at what an interrupted call left.
    Plain(Standing),
    /// Under its own lock of the workspace's folder.
    Guarded,
}

/// Whose edits may stand while a call goes on without a journal.
#[derive(Clone, Copy, Debug, PartialEq, Eq)]
pub enum Standing {
    Nobodys,
    /// Those of another call, which has the lock and restores them.
    Anothers,
    /// Those of an interrupted call: it left something, and the folder can't be locked.
    Interrupted,
}

/// How a call may go on that does this to manifests, where an interrupted call of its workspace
/// left something or didn't. Takes the lock of the folder, unless there is nothing to guard.
pub fn admit<K: Locks>(
    alloc: Global,
    edits: Edits,
    folder: &str,
    is_left: bool,
    locks: &mut K,
) -> Result<Way, CallFault>
    ensures { IsAdmitted K.tells edits folder.now is_left
        (K.shown locks.old) (K.shown locks.new) result }
{
    if !needs_lock(edits, is_left) {
        return Ok(Way::Plain(Standing::Nobodys));
    }
    let holder = locks.take(alloc, folder)?;
    decided(edits, is_left, holder)
}

/// Whether there is something to guard.
fn needs_lock(edits: Edits, is_left: bool) -> bool
    ensures { result ≡ needs_lock edits is_left }
{
    edits.is_edit() || is_left
}

/// How a call may go on, given who has the lock.
fn decided(edits: Edits, is_left: bool, holder: Holder) -> Result<Way, CallFault>
    ensures { result ≡ way_of edits is_left holder }
{
    match holder {
        Holder::Ours => Ok(Way::Guarded),
        Holder::Theirs => {
            if edits.is_edit() {
                return Err(CallFault::Busy);
            }
            Ok(Way::Plain(Standing::Anothers))
        }
        // Without a lock a journal of this call would be useless.
        Holder::Unknown => {
            if !is_left {
                return Ok(Way::Plain(Standing::Nobodys));
            }
            if edits.is_change() {
                return Err(CallFault::Unlocked);
            }
            Ok(Way::Plain(Standing::Interrupted))
        }
    }
}
