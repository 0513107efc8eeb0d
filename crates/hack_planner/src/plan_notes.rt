//! Notices on features that packages don't get.

ghost use Rattle.std.specs.Prelude.{◌≡◌, All, Contains, IfOk, OnOk, Some, map, slice_get};
ghost use Rattle.std.specs.List.{flat_map, range_with_len};
ghost use Rattle.hack_metadata.specs.RecordViews.{place_at};
ghost use Rattle.hack_load.specs.ContextView.{context_view};
ghost use Rattle.hack_load.specs.GivenFeatures.{left_out_for};
ghost use Rattle.hack_base.specs.Notes.{note_of, AddsNotes};
ghost use Rattle.hack_planner.specs.Calls.{version_notes, ranged_notes, left_out_notes};

use hack_base::notice::Notice;
use hack_load::context::Context;
use hack_load::process::features_for;
use hack_metadata::metadata::PackageId;
use hack_plan::places::slots;
use hack_plan::versions::{PlanInput, Versions};
use hack_versions::rustup::VersionGroup;
use std::alloc::{AllocError, Global};

/// Reports what the package at an index into the chosen ones doesn't get.
fn add_package(
    alloc: Global,
    cx: &Context,
    ids: &[PackageId],
    place: usize,
    notices: &mut Vec<Notice>,
) -> Result<(), AllocError>
    requires { All (λ id. Contains (context_view cx.now).metadata.workspace_members id.index)
        ids.now }
    ensures { OnOk result (AddsNotes notices.old notices.new
        (left_out_for (context_view cx.now) (slice_get (map place_at ids.now) place))) }
{
    match ids.get(place) {
        Some(id) => {
            let (_, mut told) = features_for(alloc, cx, *id)?;
            notices.append(&mut told)?;
            Ok(())
        }
        None => Ok(()),
    }
}

/// Reports it for the packages at these indices, in one slot.
fn add_slot(
    alloc: Global,
    cx: &Context,
    ids: &[PackageId],
    places: &[usize],
    notices: &mut Vec<Notice>,
) -> Result<(), AllocError>
    requires { All (λ id. Contains (context_view cx.now).metadata.workspace_members id.index)
        ids.now }
    ensures { OnOk result (AddsNotes notices.old notices.new
        (flat_map (λ p. left_out_for (context_view cx.now)
        (slice_get (map place_at ids.now) p)) places.now)) }
{
    for place in places {
        add_package(alloc, cx, ids, *place, notices)?;
    }
    Ok(())
}

/// Reports it for the packages at these indices, once for each of so many slots.
fn add_slots(
    alloc: Global,
    cx: &Context,
    ids: &[PackageId],
    slots: usize,
    places: &[usize],
    notices: &mut Vec<Notice>,
) -> Result<(), AllocError>
    requires { All (λ id. Contains (context_view cx.now).metadata.workspace_members id.index)
        ids.now }
    ensures { OnOk result (AddsNotes notices.old notices.new
        (flat_map (λ slot. flat_map (λ p. left_out_for (context_view cx.now)
        (slice_get (map place_at ids.now) p)) places.now) (range_with_len 0 slots))) }
{
    for slot in 0..slots {
        // The notices are the same in each slot.
        let _ = slot;
        add_slot(alloc, cx, ids, places, notices)?;
    }
    Ok(())
}

/// The indices below a number.
fn below(alloc: Global, n: usize) -> Result<Vec<usize>, AllocError>
    ensures { IfOk result (λ places. places.items ≡ range_with_len 0 n) }
{
    let mut places = Vec::new(alloc);
    for place in 0..n {
        places.push(place)?;
    }
    Ok(places)
}

/// Reports it for the packages of one version of a range.
fn add_group(
    alloc: Global,
    cx: &Context,
    ids: &[PackageId],
    input: &PlanInput,
    group: &VersionGroup,
    notices: &mut Vec<Notice>,
) -> Result<(), AllocError>
    requires { All (λ id. Contains (context_view cx.now).metadata.workspace_members id.index)
        ids.now }
    ensures { OnOk result (AddsNotes notices.old notices.new
        (version_notes (context_view cx.now) (map place_at ids.now) input.now
        (Some group.now.version) group.now.packages.items)) }
{
    let count = slots(input, Some(group.version));
    add_slots(alloc, cx, ids, count, &group.packages, notices)
}

/// Reports it for the packages of each version of a range.
fn add_groups(
    alloc: Global,
    cx: &Context,
    ids: &[PackageId],
    input: &PlanInput,
    groups: &[VersionGroup],
    notices: &mut Vec<Notice>,
) -> Result<(), AllocError>
    requires { All (λ id. Contains (context_view cx.now).metadata.workspace_members id.index)
        ids.now }
    ensures { OnOk result (AddsNotes notices.old notices.new
        (flat_map (λ group. version_notes (context_view cx.now) (map place_at ids.now) input.now
        (Some group.version) group.packages.items) groups.now)) }
{
    for group in groups {
        add_group(alloc, cx, ids, input, group, notices)?;
    }
    Ok(())
}

/// Reports it for the packages of each version; without a range the only one is "none".
fn add_versions(
    alloc: Global,
    cx: &Context,
    ids: &[PackageId],
    input: &PlanInput,
    groups: &[VersionGroup],
    notices: &mut Vec<Notice>,
) -> Result<(), AllocError>
    requires { All (λ id. Contains (context_view cx.now).metadata.workspace_members id.index)
        ids.now }
    ensures { OnOk result (AddsNotes notices.old notices.new
        (ranged_notes (context_view cx.now) (map place_at ids.now) input.now groups.now
        input.now.range)) }
{
    match input.range {
        Some(_) => add_groups(alloc, cx, ids, input, groups, notices),
        None => {
            let all = below(alloc, ids.len())?;
            let count = slots(input, None);
            add_slots(alloc, cx, ids, count, all.as_slice(), notices)
        }
    }
}

/// The notices on features that packages don't get, for each version, slot and package.
pub(crate) fn left_out(
    alloc: Global,
    cx: &Context,
    ids: &[PackageId],
    input: &PlanInput,
    versions: &Versions,
) -> Result<Vec<Notice>, AllocError>
    requires { All (λ id. Contains (context_view cx.now).metadata.workspace_members id.index)
        ids.now }
    ensures { IfOk result (λ notices. map note_of notices.items ≡ left_out_notes
        (context_view cx.now) (map place_at ids.now) input.now versions.now.groups.items) }
{
    let mut notices = Vec::new(alloc);
    if input.as_cargo {
        return Ok(notices);
    }
    let groups = versions.groups.as_slice();
    add_versions(alloc, cx, ids, input, groups, &mut notices)?;
    Ok(notices)
}
