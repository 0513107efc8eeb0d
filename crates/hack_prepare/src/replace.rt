//! A manifest that is edited: what it holds is kept, and then its edit is written.

ghost use Rattle.std.specs.Prelude.{◌≡◌, ◌⊎◌, ◌∷◌, [], IfErr, OnOk, OnErr, Some};
ghost use Rattle.hack_files.specs.Files.{KeepsOthers, Makes, MakesOrNot, puts};
ghost use Rattle.hack_prepare.specs.FailedCalls.{FailsOnlySo};
ghost use Rattle.hack_prepare.specs.FailureCounts.{CountsCalls, WriteFails};
ghost use Rattle.hack_prepare.specs.Faults.{IsPathFaultOr};
ghost use Rattle.hack_prepare.specs.Internal.{NoFault, Nowhere, Only, HeldUnkept, IsStep};
ghost use Rattle.hack_prepare.specs.Internal.{KeepsNext};

use crate::fault::{PrepareFault, of_file};
use hack_files::fs::{Files, write};
use hack_files::restore::Manager;
use std::alloc::Global;

/// Replaces what a manifest holds by a text. What it held is kept first.
#[tactic(auto, using(crate::proofs::StepLemmas::keeps_none, crate::proofs::FailedLemmas::call_steps))]
pub(crate) fn replace<F: Files>(
    alloc: Global,
    path: &str,
    held: &str,
    text: &str,
    files: &mut F,
    manager: &mut Manager,
) -> Result<(), PrepareFault>
    ensures stays { F.stays files.old files.new }
    ensures counted { CountsCalls (F.failed files.old) (F.failed files.new) result }
    ensures calls { FailsOnlySo F.Files Nowhere Nowhere (Only path.now)
        files.old files.new result }
    ensures step { IsStep F.tells (HeldUnkept manager.old path.now held.now) (Only path.now)
        manager.old manager.new (F.bytes_at files.old) (F.bytes_at files.new) }
    ensures order { OnOk result (KeepsNext (path.now ∷ []) manager.old manager.new) }
    ensures written { OnOk result (F.tells → F.bytes_at files.new path.now ≡ Some text.now) }
    ensures partly { F.tells → (F.bytes_at files.new path.now ≡ F.bytes_at files.old path.now)
        ⊎ ((F.bytes_at files.new path.now ≡ Some text.now)
        ⊎ WriteFails (F.refuses files.old files.new) (F.failed files.old) (F.failed files.new)
        path.now) }
    ensures refused_none { OnOk result (F.refuses files.old files.new []) }
    ensures others { F.tells → KeepsOthers path.now (F.bytes_at files.old) (F.bytes_at files.new) }
    ensures traced { OnOk result (F.whole → Makes (puts path.now text.now ∷ [])
        (F.trace files.old) (F.trace files.new) (F.bytes_at files.old) (F.bytes_at files.new)) }
    ensures refused { OnErr result (F.whole → MakesOrNot (puts path.now text.now)
        (F.trace files.old) (F.trace files.new) (F.bytes_at files.old) (F.bytes_at files.new)) }
    ensures err { IfErr result (IsPathFaultOr Nowhere (Only path.now) Nowhere NoFault) }
{
    manager.register_once(alloc, path, held.as_bytes())?;
    match write(alloc, files, path, text.as_bytes()) {
        Ok(()) => Ok(()),
        Err(fault) => Err(of_file(fault)),
    }
}
