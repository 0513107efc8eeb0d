//! The lockfile, which cargo may change, and which is restored.

ghost use Rattle.std.specs.Prelude.{◌≡◌, ◌⊎◌, ◌∷◌, [], OnOk, IfErr, IfSome, true};
ghost use Rattle.hack_files.specs.Files.{KeepsAll, Makes};
ghost use Rattle.hack_files.specs.Restore.{is_kept, registered_files};
ghost use Rattle.hack_prepare.specs.FailedCalls.{FailsOnlySo};
ghost use Rattle.hack_prepare.specs.FailureCounts.{CountsCalls};
ghost use Rattle.hack_prepare.specs.Faults.{IsPathFaultOr};
ghost use Rattle.hack_prepare.specs.Internal.{NoFault, Nowhere, Only, AnyStart, IsStep, KeepsNext};

use crate::fault::{PrepareFault, of_file};
use hack_files::fs::{Files, exists, read};
use hack_files::restore::Manager;
use std::alloc::Global;

/// Keeps what the lockfile holds, where there is one.
#[tactic(auto, using(crate::proofs::StepLemmas::keeps_none, crate::proofs::FailedLemmas::call_steps))]
pub(crate) fn keep_lockfile<F: Files>(
    alloc: Global,
    path: &str,
    files: &mut F,
    manager: &mut Manager,
) -> Result<(), PrepareFault>
    ensures stays { F.stays files.old files.new }
    ensures counted { CountsCalls (F.failed files.old) (F.failed files.new) result }
    ensures calls { FailsOnlySo F.Files Nowhere (Only path.now) Nowhere
        files.old files.new result }
    ensures step { IsStep F.tells AnyStart (Only path.now) manager.old manager.new
        (F.bytes_at files.old) (F.bytes_at files.new) }
    ensures kept { OnOk result (F.tells → manager.old.needs_restore ≡ true
        → IfSome (F.bytes_at files.old path.now) (λ _.
        is_kept (registered_files manager.new) path.now ≡ true)) }
    ensures order { OnOk result (KeepsNext [] manager.old manager.new
        ⊎ KeepsNext (path.now ∷ []) manager.old manager.new) }
    ensures same { F.tells → KeepsAll (F.bytes_at files.old) (F.bytes_at files.new) }
    ensures untraced { F.whole → Makes [] (F.trace files.old) (F.trace files.new)
        (F.bytes_at files.old) (F.bytes_at files.new) }
    ensures err { IfErr result (IsPathFaultOr (Only path.now) Nowhere Nowhere NoFault) }
{
    match exists(alloc, files, path) {
        Ok(true) => {}
        Ok(false) => return Ok(()),
        Err(fault) => return Err(of_file(fault)),
    }
    match read(alloc, files, path) {
        Ok(bytes) => manager.register_once(alloc, path, &bytes)?,
        Err(fault) => return Err(of_file(fault)),
    }
    Ok(())
}
