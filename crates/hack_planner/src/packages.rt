//! The packages that a call runs on.

ghost use Rattle.std.specs.Prelude.{◌≡◌, ◌==◌, ◌⊎◌, IfOk, IfErr, length, map, option_copied};
ghost use Rattle.hack_base.specs.Notes.{note_of};
ghost use Rattle.hack_planner.specs.Members.{IsPackageList, IsAbout, names_some as some_named};
ghost use Rattle.hack_planner.specs.Members.{members_without_names as all_unnamed};
ghost use Rattle.hack_planner.specs.MemberNotes.{AreListNotes};
ghost use Rattle.hack_planner.specs.MembersView.{member_view};
ghost use Rattle.hack_planner.specs.PackagesView.{IsListFault};

use crate::fault::PackagesFault;
use crate::listing::{
    check_named, exclusion_notes, first_called, kept_ids, lift_notes, matched_members, skip_notes,
};
use crate::member::Member;
use hack_base::notice::Notice;
use hack_metadata::metadata::PackageId;
use hack_words::cli::Args;
use std::alloc::{AllocError, Global};

/// The packages that a call runs on.
#[derive(Drop)]
pub struct PackageList {
    /// In the order of the workspace's members.
    pub ids: Vec<PackageId>,
    /// Whether exactly one package is left after exclusions; private packages that are skipped
    /// count too.
    pub is_single: bool,
}

/// Whether the call names packages, and not the whole workspace.
fn names_some(args: &Args) -> bool
    ensures { result ≡ some_named args.now }
{
    !args.workspace && !args.package.is_empty()
}

/// The members that a call without names of packages is about.
fn members_without_names<'a>(
    alloc: Global,
    everyone: bool,
    members: &[Member<'a>],
    current: Option<&str>,
) -> Result<Vec<Member<'a>>, AllocError>
    ensures { IfOk result (λ about. map member_view about.items
        ≡ all_unnamed everyone (option_copied current.entry) (map member_view members.now)) }
{
    match current {
        Some(name) if !everyone => first_called(alloc, members, name),
        Some(_) => Vec::from_slice(alloc, members),
        None => Vec::from_slice(alloc, members),
    }
}

/// The members that a call is about, before some are left out.
fn about<'a>(
    alloc: Global,
    args: &Args,
    members: &[Member<'a>],
    current: Option<&str>,
) -> Result<Vec<Member<'a>>, PackagesFault>
    ensures ok { IfOk result (λ about. IsAbout (some_named args.now) args.now
        (option_copied current.entry) (map member_view members.now)
        (map member_view about.items)) }
    ensures never { IfOk result (λ _. (e : PackagesFault)
        → ¬ IsListFault args.now (map member_view members.now) e) }
    ensures err { IfErr result (λ e. (e ≡ PackagesFault.Memory)
        ⊎ IsListFault args.now (map member_view members.now) e) }
{
    if !names_some(args) {
        return Ok(members_without_names(alloc, args.workspace, members, current)?);
    }
    if let Err(fault) = check_named(members, &args.package) {
        return Err(fault);
    }
    Ok(matched_members(alloc, members, &args.package, true)?)
}

/// Whether there is exactly one member.
fn is_one(members: &[Member<'_>]) -> bool
    ensures { result ≡ (length (map member_view members.now) == 1) }
{
    members.len() == 1
}

/// Returns the packages that a call runs on, and the notices about them. `members` are those of the
/// workspace in their order, `current` is the name of the current package, if there is one, and
/// `root` is the folder of the workspace.
pub fn choose_packages(
    alloc: Global,
    args: &Args,
    members: &[Member<'_>],
    current: Option<&str>,
    root: &str,
) -> Result<(PackageList, Vec<Notice>), PackagesFault>
    ensures ok { IfOk result (λ answer. IsPackageList args.now (option_copied current.entry)
        (map member_view members.now) (map (λ id. id.index) answer.0.ids.items)) }
    ensures notes { IfOk result (λ answer. AreListNotes args.now (option_copied current.entry)
        root.now (map member_view members.now) answer.0.is_single (map note_of answer.1.items)) }
    ensures never { IfOk result (λ _. (e : PackagesFault)
        → ¬ IsListFault args.now (map member_view members.now) e) }
    ensures err { IfErr result (λ e. (e ≡ PackagesFault.Memory)
        ⊎ IsListFault args.now (map member_view members.now) e) }
{
    let about = match about(alloc, args, members, current) {
        Ok(about) => about,
        Err(fault) => return Err(fault),
    };
    let left = matched_members(alloc, &about, &args.exclude, false)?;
    let mut notices = exclusion_notes(alloc, members, &args.exclude, root)?;
    let mut lifts = lift_notes(alloc, members, &args.allow_together, root)?;
    let mut skips = skip_notes(alloc, &left, args.ignore_private, args.verbose)?;
    notices.append(&mut lifts)?;
    notices.append(&mut skips)?;
    let list = PackageList {
        ids: kept_ids(alloc, &left, args.ignore_private)?,
        is_single: is_one(&left),
    };
    Ok((list, notices))
}
