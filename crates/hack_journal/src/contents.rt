//! What a path holds: its bytes, or that no file is there.

ghost use Rattle.std.specs.Prelude.{◌≡◌, ◌↔◌, [], IfOk, IsTrue};
ghost use Rattle.std.specs.Option.{option_map};
ghost use Rattle.hack_files.specs.Files.{CountsFailedCall, KeepsAll, Makes};
ghost use Rattle.hack_journal.specs.FailedCalls.{FailsUnseen, FailsUnseenAt};
ghost use Rattle.hack_journal.specs.FileCalls.{Puts};
ghost use Rattle.hack_journal.specs.Journal.{edit_of, edits_of};
ghost use Rattle.hack_journal.specs.Recovery.{HasEntry};
ghost use Rattle.hack_journal.specs.SafeFiles.{AreBack};

use crate::entries::same;
use crate::journal::Entry;
use hack_files::fs::{FileFault, Files, JournalFiles};
use std::alloc::Global;

/// Returns what a path holds, or `None` where nothing is there.
#[tactic(auto, using(crate::proofs::CountLemmas::grows_then, hack_files::proofs::FilesLemmas::trace_steps))]
pub fn look<F: Files>(
    alloc: Global,
    files: &mut F,
    path: &str,
) -> Result<Option<Vec<u8>>, FileFault>
    ensures stays { F.stays files.old files.new }
    ensures failures { CountsFailedCall (F.failed files.old) (F.failed files.new) result }
    ensures held { IfOk result (λ held. F.tells →
        F.bytes_at files.old path.now ≡ option_map (λ bytes. bytes.items) held) }
    ensures unseen { FailsUnseenAt F.Files path.now files.old files.new result }
    ensures same { F.tells → KeepsAll (F.bytes_at files.old) (F.bytes_at files.new) }
    ensures untraced { F.whole → Makes [] (F.trace files.old) (F.trace files.new)
        (F.bytes_at files.old) (F.bytes_at files.new) }
{
    if files.exists(path)? {
        Ok(Some(files.read(alloc, path)?))
    } else {
        Ok(None)
    }
}

/// Puts these bytes at a path, or removes what is there.
pub fn put<F: JournalFiles>(
    files: &mut F,
    path: &str,
    bytes: Option<&[u8]>,
) -> Result<(), FileFault>
    ensures { Puts F.Files path.now (option_map (λ bytes. bytes.now) bytes.entry)
        files.old files.new result }
{
    match bytes {
        Some(bytes) => files.write(path, bytes),
        None => files.remove(path),
    }
}

/// Whether the path of the entry holds what it held at first.
fn is_back<F: Files>(alloc: Global, files: &mut F, entry: &Entry) -> Result<bool, FileFault>
    ensures stays { F.stays files.old files.new }
    ensures failures { CountsFailedCall (F.failed files.old) (F.failed files.new) result }
    ensures back { IfOk result (λ back. F.tells → IsTrue back ↔
        (F.bytes_at files.old (edit_of entry.now).path ≡ (edit_of entry.now).held)) }
    ensures unseen { FailsUnseenAt F.Files (edit_of entry.now).path files.old files.new result }
    ensures same { F.tells → KeepsAll (F.bytes_at files.old) (F.bytes_at files.new) }
    ensures untraced { F.whole → Makes [] (F.trace files.old) (F.trace files.new)
        (F.bytes_at files.old) (F.bytes_at files.new) }
{
    let now = look(alloc, files, &entry.path)?;
    Ok(same(now.as_deref(), entry.held.as_deref()))
}

/// Returns whether the paths of all these entries hold what they held at first.
#[tactic(auto, using(crate::proofs::FailedLemmas::call_steps))]
pub fn are_back<F: Files>(
    alloc: Global,
    files: &mut F,
    entries: &[Entry],
) -> Result<bool, FileFault>
    ensures stays { F.stays files.old files.new }
    ensures failures { CountsFailedCall (F.failed files.old) (F.failed files.new) result }
    ensures back { IfOk result (λ back. F.tells →
        IsTrue back ↔ AreBack (edits_of entries.now) (F.bytes_at files.old)) }
    ensures unseen { FailsUnseen F.Files (HasEntry (edits_of entries.now))
        files.old files.new result }
    ensures same { F.tells → KeepsAll (F.bytes_at files.old) (F.bytes_at files.new) }
    ensures untraced { F.whole → Makes [] (F.trace files.old) (F.trace files.new)
        (F.bytes_at files.old) (F.bytes_at files.new) }
{
    match entries {
        [] => Ok(true),
        [entry, rest @ ..] => {
            if is_back(alloc, files, entry)? {
                are_back(alloc, files, rest)
            } else {
                Ok(false)
            }
        }
    }
}
