//! The manifests of members that are edited by themselves.

ghost use Rattle.std.specs.Prelude.{◌≡◌, ◌∷◌, [], IfErr, IfOk, OnOk, OnErr};
ghost use Rattle.std.specs.List.{flat_map};
ghost use Rattle.hack_files.specs.Files.{KeepsOthers};
ghost use Rattle.hack_base.specs.Names.{names_behind};
ghost use Rattle.hack_base.specs.Notes.{AddsNotes};
ghost use Rattle.hack_prepare.specs.FailedCalls.{FailsOnlySo};
ghost use Rattle.hack_prepare.specs.FailureCounts.{CountsCalls, WriteFails};
ghost use Rattle.hack_prepare.specs.Faults.{AtWrite, IsDevFault, IsPathFaultOr, IsMembersFault};
ghost use Rattle.hack_prepare.specs.Internal.{IsAlonePath, Nowhere, Only, members_view};
ghost use Rattle.hack_prepare.specs.Internal.{ArePartlyTurned, AreTurned, HoldsText, IsStep};
ghost use Rattle.hack_prepare.specs.Internal.{IsTurned, IsTurnedOrNot, KeepsApart, KeepsNext};
ghost use Rattle.hack_prepare.specs.Internal.{alone_paths, IsAtMostOne};
ghost use Rattle.hack_prepare.specs.Prepared.{HasPrivateRoot, HoldTexts, gone_manifests};
ghost use Rattle.hack_prepare.specs.PreparedView.{member_manifest_view, wanted_view};
ghost use Rattle.hack_prepare.specs.EditNotes.{dev_note, member_notes};
ghost use Rattle.hack_prepare.specs.Writes.{AreDevWrites, BeginDevWrites, IsDevWrite};
ghost use Rattle.hack_prepare.specs.Writes.{IsOne, MakesSome};

use crate::edits::without_dev;
use crate::fault::PrepareFault;
use crate::replace::replace;
use crate::told::tell_dev;
use crate::wanted::{Member, Wanted};
use hack_base::notice::Notice;
use hack_files::fs::Files;
use hack_files::restore::Manager;
use std::alloc::Global;

/// Removes the development dependencies from the manifests that are edited by themselves, and
/// returns the manifests of the members that are removed.
#[tactic(auto, using(crate::proofs::StepLemmas::keeps_none, crate::proofs::WriteLemmas::dev_all, crate::proofs::FailedLemmas::call_steps))]
pub(crate) fn edit_members<'a, F: Files>(
    alloc: Global,
    wanted: &Wanted<'_>,
    members: &[Member<'a>],
    files: &mut F,
    manager: &mut Manager,
    notices: &mut Vec<Notice>,
) -> Result<Vec<&'a str>, PrepareFault>
    ensures stays { F.stays files.old files.new }
    ensures counted { CountsCalls (F.failed files.old) (F.failed files.new) result }
    ensures calls { FailsOnlySo F.Files Nowhere Nowhere
        (IsAlonePath (wanted_view wanted.now) (members_view members.now))
        files.old files.new result }
    ensures step { IsStep F.tells (λ start. HoldTexts start (members_view members.now))
        (IsAlonePath (wanted_view wanted.now) (members_view members.now)) manager.old manager.new
        (F.bytes_at files.old) (F.bytes_at files.new) }
    ensures order { OnOk result (KeepsNext
        (alone_paths (wanted_view wanted.now) (members_view members.now))
        manager.old manager.new) }
    ensures turned { OnOk result (F.tells
        → HoldTexts (F.bytes_at files.old) (members_view members.now)
        → AreTurned (wanted_view wanted.now) (members_view members.now) (F.bytes_at files.new)) }
    ensures partly { F.tells → HoldTexts (F.bytes_at files.old) (members_view members.now)
        → ArePartlyTurned (wanted_view wanted.now) (members_view members.now)
        (WriteFails (F.refuses files.old files.new) (F.failed files.old) (F.failed files.new))
        (F.bytes_at files.old) (F.bytes_at files.new) }
    ensures refused_none { OnOk result (F.refuses files.old files.new []) }
    ensures spared { IfErr result (AtWrite (λ path. F.tells
        → HoldTexts (F.bytes_at files.old) (members_view members.now)
        → ArePartlyTurned (wanted_view wanted.now) (members_view members.now)
        (λ other. other ≡ path) (F.bytes_at files.old) (F.bytes_at files.new))) }
    ensures others { F.tells → KeepsApart (wanted_view wanted.now) (members_view members.now)
        (F.bytes_at files.old) (F.bytes_at files.new) }
    ensures traced { OnOk result (F.whole → MakesSome
        (AreDevWrites (wanted_view wanted.now) (members_view members.now))
        (F.trace files.old) (F.trace files.new) (F.bytes_at files.old) (F.bytes_at files.new)) }
    ensures refused { OnErr result (F.whole → MakesSome
        (BeginDevWrites (wanted_view wanted.now) (members_view members.now))
        (F.trace files.old) (F.trace files.new) (F.bytes_at files.old) (F.bytes_at files.new)) }
    ensures gone { IfOk result (λ paths.
        names_behind paths.items ≡ gone_manifests (wanted_view wanted.now)
        (members_view members.now)) }
    ensures never { OnOk result
        (¬ HasPrivateRoot (wanted_view wanted.now) (members_view members.now)) }
    ensures told { OnOk result (AddsNotes notices.old notices.new
        (flat_map (member_notes (wanted_view wanted.now)) (members_view members.now))) }
    ensures err { IfErr result (IsPathFaultOr Nowhere
        (IsAlonePath (wanted_view wanted.now) (members_view members.now)) Nowhere
        (IsMembersFault (wanted_view wanted.now) (members_view members.now))) }
{
    let mut gone = Vec::new(alloc);
    for member in members {
        if wanted.goes(member) {
            if wanted.is_root(member) {
                return Err(PrepareFault::PrivateRoot);
            }
            gone.push(member.path)?;
        } else if wanted.is_alone(member) {
            edit_member(alloc, wanted.verbose, member, files, manager, notices)?;
        }
    }
    Ok(gone)
}

/// Removes the development dependencies from a member's manifest.
#[tactic(auto, using(crate::proofs::StepLemmas::keeps_none, crate::proofs::FailedLemmas::call_steps))]
fn edit_member<F: Files>(
    alloc: Global,
    verbose: bool,
    member: &Member<'_>,
    files: &mut F,
    manager: &mut Manager,
    notices: &mut Vec<Notice>,
) -> Result<(), PrepareFault>
    ensures stays { F.stays files.old files.new }
    ensures counted { CountsCalls (F.failed files.old) (F.failed files.new) result }
    ensures calls { FailsOnlySo F.Files Nowhere Nowhere
        (Only (member_manifest_view member.now).path) files.old files.new result }
    ensures step { IsStep F.tells (HoldsText (member_manifest_view member.now))
        (Only (member_manifest_view member.now).path) manager.old manager.new
        (F.bytes_at files.old) (F.bytes_at files.new) }
    ensures order { OnOk result (KeepsNext ((member_manifest_view member.now).path ∷ [])
        manager.old manager.new) }
    ensures turned { OnOk result (F.tells
        → IsTurned (F.bytes_at files.new) (member_manifest_view member.now)) }
    ensures partly { F.tells → IsTurnedOrNot (WriteFails (F.refuses files.old files.new)
        (F.failed files.old) (F.failed files.new) (member_manifest_view member.now).path)
        (F.bytes_at files.old) (F.bytes_at files.new) (member_manifest_view member.now) }
    ensures refused_none { OnOk result (F.refuses files.old files.new []) }
    ensures others { F.tells → KeepsOthers (member_manifest_view member.now).path
        (F.bytes_at files.old) (F.bytes_at files.new) }
    ensures traced { OnOk result (F.whole → MakesSome
        (IsOne (IsDevWrite (member_manifest_view member.now)))
        (F.trace files.old) (F.trace files.new) (F.bytes_at files.old) (F.bytes_at files.new)) }
    ensures refused { OnErr result (F.whole → MakesSome
        (IsAtMostOne (IsDevWrite (member_manifest_view member.now)))
        (F.trace files.old) (F.trace files.new) (F.bytes_at files.old) (F.bytes_at files.new)) }
    ensures told { OnOk result (AddsNotes notices.old notices.new
        (dev_note verbose (member_manifest_view member.now).path)) }
    ensures err { IfErr result (IsPathFaultOr Nowhere (Only
        (member_manifest_view member.now).path) Nowhere
        (IsDevFault (member_manifest_view member.now).path
        (member_manifest_view member.now).text)) }
{
    tell_dev(alloc, verbose, member.path, notices)?;
    let text = without_dev(alloc, member.path, member.text)?;
    replace(
        alloc,
        member.path,
        member.text,
        text.as_str(),
        files,
        manager,
    )
}
