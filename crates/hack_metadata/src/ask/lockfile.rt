//! The lockfile, which is kept while stable's cargo runs.

ghost use Rattle.std.specs.Prelude.{◌≡◌, ◌↔◌, ◌++◌, ◌∷◌, [], List, IfOk, IfErr, OnOk, OnErr, IsOk};
ghost use Rattle.std.specs.Prelude.{IsTrue, IsSome};
ghost use Rattle.hack_files.specs.Files.{KeepsAll, Makes, MakesOrNot, refused_path};
ghost use Rattle.hack_files.specs.Restore.{Kept, registered_files, write_of};
ghost use Rattle.hack_metadata.specs.FailedQuestions.{FailsOnlyAt};
ghost use Rattle.hack_metadata.specs.FileFaults.{IsUnread};
ghost use Rattle.hack_metadata.specs.FilesAfterAsking.{LeavesFiles};
ghost use Rattle.hack_metadata.specs.Internal.{IsFileFault, KeepsOneMore};
ghost use Rattle.hack_metadata.specs.Internal.{RestoresFile, IsAskFaultOfFile};

use crate::ask::fault::AskFault;
use hack_files::fs;
use hack_files::fs::{FileFault, Files, FsFault};
use hack_files::restore::Manager;
use std::alloc::Global;

/// Returns whether something is at the path.
pub(crate) fn is_there<F: Files>(alloc: Global, path: &str, files: &mut F) -> Result<bool, AskFault>
    ensures stays { F.stays files.old files.new }
    ensures left { LeavesFiles path.now F.tells (F.bytes_at files.old) (F.bytes_at files.new)
        (F.failed files.old) (F.failed files.new) result }
    ensures refused_none { F.refuses files.old files.new [] }
    ensures unseen { F.unseen files.old files.new (refused_path result path.now) }
    ensures there { IfOk result (λ there. F.tells →
        IsTrue there ↔ IsSome (F.bytes_at files.old path.now)) }
    ensures same { F.tells → KeepsAll (F.bytes_at files.old) (F.bytes_at files.new) }
    ensures untraced { F.whole → Makes [] (F.trace files.old) (F.trace files.new)
        (F.bytes_at files.old) (F.bytes_at files.new) }
    ensures fault { IfErr result (IsFileFault (IsUnread path.now)) }
{
    match files.exists(path) {
        Ok(there) => Ok(there),
        Err(FileFault::Memory) => Err(AskFault::Memory),
        Err(FileFault::Device) => {
            let path = String::from_str(alloc, path)?;
            Err(AskFault::Files(FsFault::Read(path)))
        }
    }
}

/// Makes the manager keep what the path holds.
pub(crate) fn keep<F: Files>(
    alloc: Global,
    path: &str,
    files: &mut F,
    manager: &mut Manager,
) -> Result<(), AskFault>
    ensures stays { F.stays files.old files.new }
    ensures left { LeavesFiles path.now F.tells (F.bytes_at files.old) (F.bytes_at files.new)
        (F.failed files.old) (F.failed files.new) result }
    ensures refused_none { F.refuses files.old files.new [] }
    ensures calls { FailsOnlyAt F.Files path.now files.old files.new result }
    ensures ok { OnOk result (KeepsOneMore path.now F.tells (F.bytes_at files.old)
        (registered_files manager.old) (registered_files manager.new)) }
    ensures err { OnErr result (registered_files manager.new ≡ registered_files manager.old) }
    ensures same { F.tells → KeepsAll (F.bytes_at files.old) (F.bytes_at files.new) }
    ensures untraced { F.whole → Makes [] (F.trace files.old) (F.trace files.new)
        (F.bytes_at files.old) (F.bytes_at files.new) }
    ensures fault { IfErr result (IsFileFault (IsUnread path.now)) }
    ensures needs { manager.new.needs_restore ≡ manager.old.needs_restore }
{
    let bytes = match fs::read(alloc, files, path) {
        Ok(bytes) => bytes,
        Err(fault) => return Err(file_fault(fault)),
    };
    manager.register_always(alloc, path, &bytes)?;
    Ok(())
}

/// Puts back the file that the manager kept last.
pub(crate) fn put_back<F: Files>(files: &mut F, manager: &mut Manager) -> Result<(), AskFault>
    ensures stays { F.stays files.old files.new }
    ensures back { (file : Kept) (earlier : List Kept)
        → registered_files manager.old ≡ earlier ++ file ∷ [] → RestoresFile file F.tells
        (F.bytes_at files.old) (F.bytes_at files.new)
        (F.failed files.old) (F.failed files.new) result }
    ensures traced { OnOk result ((file : Kept) (earlier : List Kept)
        → registered_files manager.old ≡ earlier ++ file ∷ [] → F.whole
        → Makes (write_of file ∷ []) (F.trace files.old) (F.trace files.new)
        (F.bytes_at files.old) (F.bytes_at files.new)) }
    ensures refused { OnErr result ((file : Kept) (earlier : List Kept)
        → registered_files manager.old ≡ earlier ++ file ∷ [] → F.whole
        → MakesOrNot (write_of file) (F.trace files.old) (F.trace files.new)
        (F.bytes_at files.old) (F.bytes_at files.new)) }
    ensures refused_path { (file : Kept) (earlier : List Kept)
        → registered_files manager.old ≡ earlier ++ file ∷ []
        → F.refuses files.old files.new (refused_path result file.path) }
    ensures unseen_none { F.unseen files.old files.new [] }
    ensures none { registered_files manager.old ≡ [] → IsOk result }
    ensures kept { (file : Kept) (earlier : List Kept)
        → registered_files manager.old ≡ earlier ++ file ∷ [] → registered_files manager.new
        ≡ earlier }
    ensures needs { manager.new.needs_restore ≡ manager.old.needs_restore }
{
    match manager.restore_last(files) {
        Ok(()) => Ok(()),
        Err(fault) => Err(file_fault(fault)),
    }
}

fn file_fault(fault: FsFault) -> AskFault
    ensures { IsAskFaultOfFile fault result }
{
    match fault {
        FsFault::Memory => AskFault::Memory,
        fault => AskFault::Files(fault),
    }
}
