//! How packages are chosen: functions over all members or specifications.

ghost use Rattle.std.specs.Prelude.{◌≡◌, ◌⊎◌, ◌↔◌, ◌++◌, ◌&&◌, IfOk};
ghost use Rattle.std.specs.Prelude.{IfErr, OnOk, IsTrue, map, filter, not, string_bytes};
ghost use Rattle.hack_base.specs.Names.{names_of};
ghost use Rattle.hack_base.specs.Notes.{note_of, warning_note, info_note};
ghost use Rattle.hack_planner.specs.Texts.{exclusion_text, lift_text as lift_words, private_text};
ghost use Rattle.hack_planner.specs.Members.{MatchesSome, AllMatch, SelectsMembers, Collects};
ghost use Rattle.hack_planner.specs.Members.{is_called as has_called};
ghost use Rattle.std.specs.List.{find};
ghost use Rattle.std.specs.Option.{option_to_list};
ghost use Rattle.std.specs.Str.{bytes_eq};
ghost use Rattle.hack_planner.specs.MembersView.{member_view};
ghost use Rattle.hack_planner.specs.InternalListingView.{IsMatchedAs, IsNamedFault, kept_place};

use crate::fault::PackagesFault;
use crate::member::{Member, is_called, is_matched, matches_some};
use crate::notes::{exclusion_text, lift_text, private_text};
use hack_base::notice::{Notice, NoticeKind, tell};
use hack_features::Feature;
use hack_metadata::metadata::PackageId;
use std::alloc::{AllocError, Global};

/// Checks that each specification matches a member. The error has the first one that matches none.
pub(crate) fn check_named(members: &[Member<'_>], specs: &[String]) -> Result<(), PackagesFault>
    ensures ok { OnOk result (AllMatch (map member_view members.now) (names_of specs.now)) }
    ensures err { IfErr result (λ e. (e ≡ PackagesFault.Memory)
        ⊎ IsNamedFault (map member_view members.now) (names_of specs.now) e) }
{
    for spec in specs {
        if !matches_some(members, spec.as_str()) {
            return Err(PackagesFault::Unmatched(spec.clone()?));
        }
    }
    Ok(())
}

/// Whether one of the specifications matches the member, or, if `matched` is false, whether none
/// does.
fn is_picked(member: &Member<'_>, specs: &[String], matched: bool) -> bool
    ensures { IsTrue result ↔ IsMatchedAs matched (names_of specs.now) (member_view member.now) }
{
    if matched {
        is_matched(member, specs)
    } else {
        !is_matched(member, specs)
    }
}

/// The members that one of the specifications matches, or, if `matched` is false, those that none
/// matches.
pub(crate) fn matched_members<'a>(
    alloc: Global,
    members: &[Member<'a>],
    specs: &[String],
    matched: bool,
) -> Result<Vec<Member<'a>>, AllocError>
    ensures { IfOk result (λ kept. SelectsMembers (IsMatchedAs matched (names_of specs.now))
        (map member_view members.now) (map member_view kept.items)) }
{
    let mut kept = Vec::new(alloc);
    for member in members {
        if !is_picked(member, specs, matched) {
            continue;
        }
        kept.push(*member)?;
    }
    Ok(kept)
}

/// The first member that has the name, if there is one.
pub(crate) fn first_called<'a>(
    alloc: Global,
    members: &[Member<'a>],
    name: &str,
) -> Result<Vec<Member<'a>>, AllocError>
    ensures { IfOk result (λ kept. map member_view kept.items
        ≡ option_to_list (find (λ m. bytes_eq m.pkg.name name.now) (map member_view members.now))) }
{
    let mut kept = Vec::new(alloc);
    for member in members {
        if member.pkg.name.as_str() == name {
            kept.push(*member)?;
            return Ok(kept);
        }
    }
    Ok(kept)
}

/// A warning for each excluded specification that matches no member.
pub(crate) fn exclusion_notes(
    alloc: Global,
    members: &[Member<'_>],
    exclude: &[String],
    root: &str,
) -> Result<Vec<Notice>, AllocError>
    ensures { IfOk result (λ notices. Collects (λ spec. ¬ MatchesSome (map member_view
        members.now) spec)
        (λ spec. warning_note (exclusion_text root.now spec))
        (names_of exclude.now) (map note_of notices.items)) }
{
    let mut notices = Vec::new(alloc);
    for spec in exclude {
        if matches_some(members, spec.as_str()) {
            continue;
        }
        let text = exclusion_text(alloc, spec.as_str(), root)?;
        notices.push(Notice {
            kind: NoticeKind::Warn,
            text,
        })?;
    }
    Ok(notices)
}

/// A warning for each package name of `--allow-together` that no member has.
pub(crate) fn lift_notes(
    alloc: Global,
    members: &[Member<'_>],
    lifts: &[(String, Feature)],
    root: &str,
) -> Result<Vec<Notice>, AllocError>
    ensures { IfOk result (λ notices. map note_of notices.items
        ≡ map (λ owner. warning_note (lift_words root.now owner))
        (filter (λ owner. not (has_called (map member_view members.now) owner))
        (map (λ lift. string_bytes lift.0) lifts.now))) }
{
    let mut notices = Vec::new(alloc);
    for lift in lifts {
        let owner = lift.0.as_str();
        let text = lift_text(alloc, owner, root)?;
        let told = !is_called(members, owner);
        tell(&mut notices, told, NoticeKind::Warn, text)?;
    }
    Ok(notices)
}

/// Whether the member is skipped: it is private, and private ones are ignored.
fn is_skipped(member: &Member<'_>, ignored: bool) -> bool
    ensures { result ≡ (ignored && (member_view member.now).is_private) }
{
    ignored && member.is_private
}

/// A notice for each private member, if private ones are ignored.
pub(crate) fn skip_notes(
    alloc: Global,
    members: &[Member<'_>],
    ignored: bool,
    verbose: bool,
) -> Result<Vec<Notice>, AllocError>
    ensures { IfOk result (λ notices. map note_of notices.items
        ≡ map (λ m. info_note (private_text verbose m.pkg))
        (filter (λ m. ignored && m.is_private) (map member_view members.now))) }
{
    let mut notices = Vec::new(alloc);
    for member in members {
        let text = private_text(alloc, member.pkg, verbose)?;
        let told = is_skipped(member, ignored);
        tell(&mut notices, told, NoticeKind::Info, text)?;
    }
    Ok(notices)
}

/// The ids of the members that aren't private, or of all members if private ones aren't ignored.
pub(crate) fn kept_ids(
    alloc: Global,
    members: &[Member<'_>],
    ignored: bool,
) -> Result<Vec<PackageId>, AllocError>
    ensures { IfOk result (λ ids. map (λ id. id.index) ids.items
        ≡ map (λ m. m.place) (filter (λ m. not (ignored && m.is_private))
        (map member_view members.now))) }
{
    let mut ids = Vec::new(alloc);
    for member in members {
        keep(&mut ids, member, ignored)?;
    }
    Ok(ids)
}

/// Adds the id of the member to the others, unless the member is skipped.
fn keep(ids: &mut Vec<PackageId>, member: &Member<'_>, ignored: bool) -> Result<(), AllocError>
    ensures { OnOk result (map (λ id. id.index) ids.new.items ≡ map (λ id. id.index) ids.old.items
        ++ kept_place ignored (member_view member.now)) }
{
    if !is_skipped(member, ignored) {
        ids.push(member.id)?;
    }
    Ok(())
}
