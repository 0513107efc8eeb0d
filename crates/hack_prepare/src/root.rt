//! The manifest in the folder of the workspace, which gets all its edits in one write.

ghost use Rattle.std.specs.Prelude.{◌≡◌, IfErr, option_copied, option_map, string_bytes, MatchBool};
ghost use Rattle.std.specs.Prelude.{◌⊎◌, ◌&&◌, ◌||◌, [], IfOk, OnOk, OnErr, true, false, Some};
ghost use Rattle.std.specs.List.{find};
ghost use Rattle.hack_base.specs.Names.{Name, names_behind};
ghost use Rattle.hack_base.specs.Notes.{AddsNotes};
ghost use Rattle.hack_edits.specs.DevDeps.{IsWithoutDev};
ghost use Rattle.hack_private_crates.specs.Members.{in_order};
ghost use Rattle.hack_private_crates.specs.PrivateCrates.{IsWithoutPrivate};
ghost use Rattle.hack_prepare.specs.FailedCalls.{FailsOnlySo, IsAbsent};
ghost use Rattle.hack_prepare.specs.FailureCounts.{CountsCalls, WriteFails};
ghost use Rattle.hack_prepare.specs.Faults.{IsDevFault, IsPathFaultOr, IsPrivateFault};
ghost use Rattle.hack_prepare.specs.Internal.{IsHeldFault, Nowhere, Only, OnlyIf, members_view};
ghost use Rattle.hack_prepare.specs.Internal.{AnyStart, HeldUnkept, IsStep, KeepsBut, MakesRoot};
ghost use Rattle.hack_prepare.specs.Internal.{MakesRootOrNot, KeepsNext, one_if, MayWriteRoot};
ghost use Rattle.hack_prepare.specs.Faults.{IsRootFault, IsRootTextFault};
ghost use Rattle.hack_prepare.specs.Paths.{IsReadRoot, IsTextless};
ghost use Rattle.hack_prepare.specs.Prepared.{HoldTexts, drops_at_root, edits_root, gone_manifests};
ghost use Rattle.hack_prepare.specs.Prepared.{is_root};
ghost use Rattle.hack_manifest.specs.LineRuns.{has_some};
ghost use Rattle.hack_prepare.specs.PreparedView.{wanted_view};
ghost use Rattle.hack_prepare.specs.EditSteps.{IsRootText};
ghost use Rattle.hack_prepare.specs.EditNotes.{dev_note, edit_notes, private_note, root_notes};
ghost use Rattle.hack_prepare.specs.Writes.{AreRootWrites, IsOneIf, IsRootWrite, MakesSome};

use crate::edits::{without_dev, without_private};
use crate::fault::{PrepareFault, of_file};
use crate::replace::replace;
use crate::told::{tell_dev, tell_private};
use crate::wanted::{Member, Wanted};
use hack_base::notice::Notice;
use hack_files::fs::{Files, read_to_string};
use hack_files::restore::Manager;
use std::alloc::Global;

/// The members of a workspace.
#[derive(Drop)]
pub(crate) struct Members<'s, 'g, 'm> {
    pub(crate) all: &'s [Member<'m>],
    /// The manifests of those that are removed.
    pub(crate) gone: &'g [&'m str],
}

/// What the manifest holds, and how it is edited.
#[derive(Drop)]
struct Held<'t, 'g, 'm> {
    text: &'t str,
    drops_dev: bool,
    /// The manifests of the members that are removed.
    gone: &'g [&'m str],
}

/// Edits the manifest in the folder of the workspace, where that is wanted.
#[tactic(auto, using(crate::proofs::StepLemmas::keeps_none, crate::proofs::FailedLemmas::call_steps))]
pub(crate) fn edit_root<F: Files>(
    alloc: Global,
    wanted: &Wanted<'_>,
    members: &Members<'_, '_, '_>,
    files: &mut F,
    manager: &mut Manager,
    notices: &mut Vec<Notice>,
) -> Result<(), PrepareFault>
    requires { names_behind members.now.gone.now ≡ gone_manifests (wanted_view wanted.now)
        (members_view members.now.all.now) }
    ensures stays { F.stays files.old files.new }
    ensures counted { CountsCalls (F.failed files.old) (F.failed files.new) result }
    ensures calls { FailsOnlySo F.Files (IsAbsent F.tells (F.bytes_at files.old)
        (IsReadRoot (wanted_view wanted.now) (members_view members.now.all.now)))
        (IsReadRoot (wanted_view wanted.now) (members_view members.now.all.now))
        (OnlyIf (edits_root (wanted_view wanted.now) (members_view members.now.all.now))
        wanted.now.root.now) files.old files.new result }
    ensures step { IsStep F.tells (λ start. HoldTexts start (members_view members.now.all.now))
        (OnlyIf (edits_root (wanted_view wanted.now) (members_view members.now.all.now))
        wanted.now.root.now)
        manager.old manager.new (F.bytes_at files.old) (F.bytes_at files.new) }
    ensures order { OnOk result (KeepsNext
        (one_if (edits_root (wanted_view wanted.now) (members_view members.now.all.now))
        wanted.now.root.now) manager.old manager.new) }
    ensures edited { OnOk result (F.tells
        → edits_root (wanted_view wanted.now) (members_view members.now.all.now) ≡ true
        → (text : Name)
        × IsRootText (wanted_view wanted.now) (members_view members.now.all.now)
        (F.bytes_at files.old) text
        × MakesRoot (wanted_view wanted.now)
        (drops_at_root (wanted_view wanted.now) (members_view members.now.all.now))
        (names_behind members.now.gone.now) text
        (F.bytes_at files.new)) }
    ensures partly { F.tells → MakesRootOrNot (wanted_view wanted.now)
        (drops_at_root (wanted_view wanted.now) (members_view members.now.all.now))
        (names_behind members.now.gone.now)
        (IsRootText (wanted_view wanted.now) (members_view members.now.all.now)
        (F.bytes_at files.old))
        (WriteFails (F.refuses files.old files.new) (F.failed files.old) (F.failed files.new)
        wanted.now.root.now) (F.bytes_at files.old) (F.bytes_at files.new) }
    ensures refused_none { OnOk result (F.refuses files.old files.new []) }
    ensures others { F.tells → KeepsBut (wanted_view wanted.now)
        (edits_root (wanted_view wanted.now) (members_view members.now.all.now))
        (F.bytes_at files.old) (F.bytes_at files.new) }
    ensures traced { OnOk result (F.whole → MakesSome (AreRootWrites F.tells
        (wanted_view wanted.now) (members_view members.now.all.now) (F.bytes_at files.old))
        (F.trace files.old) (F.trace files.new) (F.bytes_at files.old) (F.bytes_at files.new)) }
    ensures refused { OnErr result (F.whole → MakesSome (MayWriteRoot F.tells
        (wanted_view wanted.now) (members_view members.now.all.now) (F.bytes_at files.old))
        (F.trace files.old) (F.trace files.new) (F.bytes_at files.old) (F.bytes_at files.new)) }
    ensures told { OnOk result (AddsNotes notices.old notices.new
        (root_notes (wanted_view wanted.now) (members_view members.now.all.now))) }
    ensures err { IfErr result (IsPathFaultOr
        (IsReadRoot (wanted_view wanted.now) (members_view members.now.all.now))
        (OnlyIf (edits_root (wanted_view wanted.now) (members_view members.now.all.now))
        wanted.now.root.now)
        (IsTextless F.tells (F.bytes_at files.old)
        (IsReadRoot (wanted_view wanted.now) (members_view members.now.all.now)))
        (IsRootFault (wanted_view wanted.now) (members_view members.now.all.now) F.tells
        (F.bytes_at files.old))) }
{
    if !wanted.no_private {
        return Ok(());
    }
    match root_text(wanted, members.all) {
        Some(text) => {
            let held = Held {
                text,
                drops_dev: wanted.drops_dev,
                gone: members.gone,
            };
            edit_held(alloc, wanted, &held, files, manager, notices)
        }
        None => edit_virtual(alloc, wanted, members.gone, files, manager, notices),
    }
}

/// Returns what was read from the manifest of the member in the folder of the workspace, if any.
fn root_text<'a>(wanted: &Wanted<'_>, members: &[Member<'a>]) -> Option<&'a str>
    ensures { option_copied result ≡ option_map (λ m. m.text)
        (find (is_root (wanted_view wanted.now)) (members_view members.now)) }
{
    for member in members {
        if wanted.is_root(member) {
            return Some(member.text);
        }
    }
    None
}

/// Edits a virtual manifest, which belongs to no member: it is read here.
#[tactic(auto, using(crate::proofs::StepLemmas::keeps_none, crate::proofs::FailedLemmas::call_steps))]
fn edit_virtual<F: Files>(
    alloc: Global,
    wanted: &Wanted<'_>,
    private: &[&str],
    files: &mut F,
    manager: &mut Manager,
    notices: &mut Vec<Notice>,
) -> Result<(), PrepareFault>
    ensures stays { F.stays files.old files.new }
    ensures counted { CountsCalls (F.failed files.old) (F.failed files.new) result }
    ensures calls { FailsOnlySo F.Files (IsAbsent F.tells (F.bytes_at files.old)
        (OnlyIf (has_some (names_behind private.now)) wanted.now.root.now))
        (OnlyIf (has_some (names_behind private.now)) wanted.now.root.now)
        (OnlyIf (has_some (names_behind private.now)) wanted.now.root.now)
        files.old files.new result }
    ensures step { IsStep F.tells AnyStart
        (OnlyIf (has_some (names_behind private.now)) wanted.now.root.now)
        manager.old manager.new (F.bytes_at files.old) (F.bytes_at files.new) }
    ensures order { OnOk result (KeepsNext
        (one_if (has_some (names_behind private.now)) wanted.now.root.now)
        manager.old manager.new) }
    ensures edited { OnOk result (F.tells → has_some (names_behind private.now) ≡ true
        → (text : Name) × (F.bytes_at files.old wanted.now.root.now ≡ Some text)
        × MakesRoot (wanted_view wanted.now) false (names_behind private.now) text
        (F.bytes_at files.new)) }
    ensures partly { F.tells → MakesRootOrNot (wanted_view wanted.now) false
        (names_behind private.now)
        (λ text. F.bytes_at files.old wanted.now.root.now ≡ Some text)
        (WriteFails (F.refuses files.old files.new) (F.failed files.old) (F.failed files.new)
        wanted.now.root.now) (F.bytes_at files.old) (F.bytes_at files.new) }
    ensures refused_none { OnOk result (F.refuses files.old files.new []) }
    ensures others { F.tells → KeepsBut (wanted_view wanted.now)
        (has_some (names_behind private.now))
        (F.bytes_at files.old) (F.bytes_at files.new) }
    ensures traced { OnOk result (F.whole → MakesSome
        (IsOneIf (has_some (names_behind private.now))
        (IsRootWrite (wanted_view wanted.now) false (names_behind private.now)
        (λ text. F.tells → F.bytes_at files.old wanted.now.root.now ≡ Some text)))
        (F.trace files.old) (F.trace files.new) (F.bytes_at files.old) (F.bytes_at files.new)) }
    ensures refused { OnErr result (F.whole → MakesSome (λ made. (made ≡ [])
        ⊎ IsOneIf (has_some (names_behind private.now))
        (IsRootWrite (wanted_view wanted.now) false (names_behind private.now)
        (λ text. F.tells → F.bytes_at files.old wanted.now.root.now ≡ Some text)) made)
        (F.trace files.old) (F.trace files.new) (F.bytes_at files.old) (F.bytes_at files.new)) }
    ensures told { OnOk result (AddsNotes notices.old notices.new
        (edit_notes (wanted_view wanted.now) false (names_behind private.now))) }
    ensures err { IfErr result (IsPathFaultOr (OnlyIf
        (has_some (names_behind private.now)) wanted.now.root.now)
        (OnlyIf (has_some (names_behind private.now)) wanted.now.root.now)
        (IsTextless F.tells (F.bytes_at files.old)
        (OnlyIf (has_some (names_behind private.now)) wanted.now.root.now))
        (IsHeldFault (wanted_view wanted.now) (names_behind private.now) F.tells
        (F.bytes_at files.old))) }
{
    if private.is_empty() {
        return Ok(());
    }
    match read_to_string(alloc, files, wanted.root) {
        Ok(text) => {
            let held = Held {
                text: text.as_str(),
                drops_dev: false,
                gone: private,
            };
            edit_held(alloc, wanted, &held, files, manager, notices)
        }
        Err(fault) => Err(of_file(fault)),
    }
}

/// Edits what the manifest holds, where there is something to do.
#[tactic(auto, using(crate::proofs::StepLemmas::keeps_none, crate::proofs::FailedLemmas::call_steps))]
fn edit_held<F: Files>(
    alloc: Global,
    wanted: &Wanted<'_>,
    held: &Held<'_, '_, '_>,
    files: &mut F,
    manager: &mut Manager,
    notices: &mut Vec<Notice>,
) -> Result<(), PrepareFault>
    ensures stays { F.stays files.old files.new }
    ensures counted { CountsCalls (F.failed files.old) (F.failed files.new) result }
    ensures calls { FailsOnlySo F.Files Nowhere Nowhere
        (OnlyIf (held.now.drops_dev || has_some (names_behind held.now.gone.now))
        wanted.now.root.now) files.old files.new result }
    ensures step { IsStep F.tells (HeldUnkept manager.old wanted.now.root.now held.now.text.now)
        (OnlyIf (held.now.drops_dev || has_some (names_behind held.now.gone.now))
        wanted.now.root.now)
        manager.old manager.new (F.bytes_at files.old) (F.bytes_at files.new) }
    ensures order { OnOk result (KeepsNext
        (one_if (held.now.drops_dev || has_some (names_behind held.now.gone.now))
        wanted.now.root.now) manager.old manager.new) }
    ensures edited { OnOk result (F.tells → MakesRoot (wanted_view wanted.now) held.now.drops_dev
        (names_behind held.now.gone.now) held.now.text.now (F.bytes_at files.new)) }
    ensures partly { F.tells → MakesRootOrNot (wanted_view wanted.now) held.now.drops_dev
        (names_behind held.now.gone.now) (Only held.now.text.now)
        (WriteFails (F.refuses files.old files.new) (F.failed files.old) (F.failed files.new)
        wanted.now.root.now) (F.bytes_at files.old) (F.bytes_at files.new) }
    ensures refused_none { OnOk result (F.refuses files.old files.new []) }
    ensures others { F.tells → KeepsBut (wanted_view wanted.now)
        (held.now.drops_dev || has_some (names_behind held.now.gone.now))
        (F.bytes_at files.old) (F.bytes_at files.new) }
    ensures traced { OnOk result (F.whole → MakesSome
        (IsOneIf (held.now.drops_dev || has_some (names_behind held.now.gone.now))
        (IsRootWrite (wanted_view wanted.now) held.now.drops_dev (names_behind held.now.gone.now)
        (Only held.now.text.now)))
        (F.trace files.old) (F.trace files.new) (F.bytes_at files.old) (F.bytes_at files.new)) }
    ensures refused { OnErr result (F.whole → MakesSome (λ made. (made ≡ [])
        ⊎ IsOneIf (held.now.drops_dev || has_some (names_behind held.now.gone.now))
        (IsRootWrite (wanted_view wanted.now) held.now.drops_dev (names_behind held.now.gone.now)
        (Only held.now.text.now)) made)
        (F.trace files.old) (F.trace files.new) (F.bytes_at files.old) (F.bytes_at files.new)) }
    ensures told { OnOk result (AddsNotes notices.old notices.new
        (edit_notes (wanted_view wanted.now) held.now.drops_dev (names_behind held.now.gone.now))) }
    ensures err { IfErr result (IsPathFaultOr Nowhere
        (OnlyIf (held.now.drops_dev || has_some (names_behind held.now.gone.now))
        wanted.now.root.now) Nowhere
        (λ e. ((held.now.drops_dev || has_some (names_behind held.now.gone.now)) ≡ true)
        × IsRootTextFault (wanted_view wanted.now) held.now.drops_dev
        (names_behind held.now.gone.now) held.now.text.now e)) }
{
    if !is_asked(held.drops_dev, held.gone) {
        return Ok(());
    }
    let between = dev_edit(alloc, wanted, held.drops_dev, held.text, notices)?;
    let text = private_edit(alloc, wanted, held.gone, between, notices)?;
    replace(alloc, wanted.root, held.text, text.as_str(), files, manager)
}

/// Whether there is something to do.
fn is_asked(drops_dev: bool, private: &[&str]) -> bool
    ensures { result ≡ (drops_dev || has_some (names_behind private.now)) }
{
    drops_dev || !private.is_empty()
}

/// Returns the text, without its development dependencies where these are to be removed.
fn dev_edit(
    alloc: Global,
    wanted: &Wanted<'_>,
    drops_dev: bool,
    text: &str,
    notices: &mut Vec<Notice>,
) -> Result<String, PrepareFault>
    ensures ok { IfOk result (λ new. MatchBool drops_dev
        (IsWithoutDev text.now (string_bytes new)) (string_bytes new ≡ text.now)) }
    ensures told { OnOk result (AddsNotes notices.old notices.new
        (dev_note (drops_dev && wanted.now.verbose) wanted.now.root.now)) }
    ensures err { IfErr result (λ e. (e ≡ PrepareFault.Memory)
        ⊎ ((drops_dev ≡ true) × IsDevFault wanted.now.root.now text.now e)) }
{
    if !drops_dev {
        return Ok(String::from_str(alloc, text)?);
    }
    tell_dev(alloc, wanted.verbose, wanted.root, notices)?;
    without_dev(alloc, wanted.root, text)
}

/// Returns the text without the members that are to be removed, if there are any.
fn private_edit(
    alloc: Global,
    wanted: &Wanted<'_>,
    private: &[&str],
    text: String,
    notices: &mut Vec<Notice>,
) -> Result<String, PrepareFault>
    ensures ok { IfOk result (λ new. MatchBool (has_some (names_behind private.now))
        (IsWithoutPrivate wanted.now.folder.now (in_order (names_behind private.now))
        (string_bytes text) (string_bytes new)) (string_bytes new ≡ string_bytes text)) }
    ensures told { OnOk result (AddsNotes notices.old notices.new
        (private_note (has_some (names_behind private.now) && wanted.now.verbose)
        wanted.now.root.now)) }
    ensures err { IfErr result (λ e. (e ≡ PrepareFault.Memory)
        ⊎ IsPrivateFault wanted.now.root.now wanted.now.folder.now
        (in_order (names_behind private.now))
        (string_bytes text) e) }
{
    if private.is_empty() {
        return Ok(text);
    }
    tell_private(alloc, wanted.verbose, wanted.root, notices)?;
    without_private(alloc, wanted.root, wanted.folder, private, text.as_str())
}
