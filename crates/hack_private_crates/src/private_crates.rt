//! A manifest's workspace without private crates.

ghost use Rattle.std.specs.Prelude.{◌≡◌, ◌≢◌, true, false, Some, None, map, MatchResult};
ghost use Rattle.std.specs.Prelude.{IfOk, IfSome, string_bytes};
ghost use Rattle.toml.specs.Parse.{parse_document};
ghost use Rattle.toml.specs.Data.{get_member};
ghost use Rattle.toml.specs.View.{view, table_view};
ghost use Rattle.hack_base.specs.PathTexts.{parent_of};
ghost use Rattle.hack_base.specs.Names.{names_behind};
ghost use Rattle.hack_manifest.specs.Manifest.{table_at};
ghost use Rattle.hack_manifest.specs.PieceView.{piece_view, slice_view};
ghost use Rattle.hack_edits.specs.KeyPaths.{workspace_key, exclude_key};
ghost use Rattle.hack_private_crates.specs.Members.{in_order, excluded_folders};
ghost use Rattle.hack_manifest.specs.LineRuns.{has_some};
ghost use Rattle.hack_edits.specs.Lookup.{items_in};
ghost use Rattle.hack_edits.specs.Parts.{AreParts};
ghost use Rattle.hack_private_crates.specs.PrivateCrates.{IsMade, IsWorkspaceEdit};
ghost use Rattle.hack_private_crates.specs.PrivateCrates.{IsWithoutPrivate};
ghost use Rattle.hack_private_crates.specs.PrivateCrates.{some_control, some_path_control, some_header};
ghost use Rattle.hack_private_crates.specs.PrivateCrates.{is_array_data, has_no_place};
ghost use Rattle.hack_private_crates.specs.PrivateCrates.{HasBadForm, HasFitForm, HasNoWork, HasWork};
ghost use Rattle.hack_private_crates.specs.WorkspaceTree.{takes, has_work};

use crate::exclude::{added_inside, has_paths, with_exclude_line};
use crate::members::{Choice, MEMBERS, Private, chosen, in_order};
use crate::workspace_tree::{EXCLUDE, WORKSPACE, reads_as_expected};
use hack_edits::arrays::without_elements;
use hack_edits::key_paths::{is_header_of, is_pair};
use hack_edits::manifest::EditFault;
use hack_edits::tables::{copy_of, tree_of};
use hack_manifest::lookup::{find_table, has_values, value_at};
use hack_manifest::manifest::Piece;
use hack_manifest::pieces::{cut, is_inline};
use std::alloc::{AllocError, Global};
use toml::{Table, Value};

/// Returns the manifest without private crates, which are given by the paths of their manifests.
/// For each path the first of the workspace's members that leads to it is removed; paths to which
/// none leads are excluded, in byte order and each once. All other bytes stay, in order.
pub fn remove_private_crates(
    alloc: Global,
    text: &str,
    root: &str,
    private: &[&str],
) -> Result<String, EditFault>
    ensures ok { IfOk result (λ s.
        IsWithoutPrivate root.now (in_order (names_behind private.now)) text.now (string_bytes s)) }
    ensures unchanged { HasNoWork root.now (in_order (names_behind private.now)) text.now
        → MatchResult result (λ s. string_bytes s ≡ text.now) (λ e. e ≡ EditFault.Memory) }
    ensures toml { result ≡ Err EditFault.Toml → parse_document text.now ≡ None }
    ensures form { result ≡ Err EditFault.WorkspaceForm
        → HasBadForm root.now (in_order (names_behind private.now)) text.now }
    ensures path { result ≡ Err EditFault.PathText
        → HasWork root.now (in_order (names_behind private.now)) text.now
        × (some_path_control (in_order (names_behind private.now)) ≡ true) }
    ensures read_back { result ≡ Err EditFault.ReadBack
        → HasFitForm root.now (in_order (names_behind private.now)) text.now
        × (some_path_control (in_order (names_behind private.now)) ≡ false) }
    ensures inline { result ≢ Err EditFault.InlineTarget }
{
    let ordered = in_order(alloc, private)?;
    let sorted = Private {
        root,
        paths: ordered.as_slice(),
    };
    without_ordered(alloc, text, &sorted)
}

/// Returns the manifest without private crates, whose paths are in order.
fn without_ordered(alloc: Global, text: &str, private: &Private<'_>) -> Result<String, EditFault>
    ensures ok { IfOk result (λ s. IsWithoutPrivate private.now.root.now
        (names_behind private.now.paths.now) text.now
        (string_bytes s)) }
    ensures unchanged { HasNoWork private.now.root.now (names_behind private.now.paths.now) text.now
        → MatchResult result (λ s. string_bytes s ≡ text.now) (λ e. e ≡ EditFault.Memory) }
    ensures toml { result ≡ Err EditFault.Toml → parse_document text.now ≡ None }
    ensures form { result ≡ Err EditFault.WorkspaceForm
        → HasBadForm private.now.root.now (names_behind private.now.paths.now) text.now }
    ensures path { result ≡ Err EditFault.PathText
        → (HasWork private.now.root.now (names_behind private.now.paths.now) text.now)
        × (some_path_control (names_behind private.now.paths.now) ≡ true) }
    ensures read_back { result ≡ Err EditFault.ReadBack
        → HasFitForm private.now.root.now (names_behind private.now.paths.now) text.now
        × (some_path_control (names_behind private.now.paths.now) ≡ false) }
    ensures inline { result ≢ Err EditFault.InlineTarget }
{
    let Some(old) = tree_of(alloc, text)? else {
        return Err(EditFault::Toml);
    };
    let Some(workspace) = find_table(&old, WORKSPACE) else {
        let same = String::from_str(alloc, text)?;
        return Ok(same);
    };
    let choice = chosen(alloc, private, workspace)?;
    if !choice.some && !has_paths(choice.paths.as_slice()) {
        let same = String::from_str(alloc, text)?;
        return Ok(same);
    }
    if any_control(private.paths) {
        return Err(EditFault::PathText);
    }
    let copy = copy_of(&old)?;
    without_private(alloc, text, private, workspace, &choice, copy)
}

/// Edits a manifest that has something to take out or add.
fn without_private(
    alloc: Global,
    text: &str,
    private: &Private<'_>,
    workspace: &Table,
    choice: &Choice<'_>,
    old: Table,
) -> Result<String, EditFault>
    requires read { parse_document text.now ≡ Some (table_view old) }
    requires workspace { table_at workspace_key (table_view old) ≡ Some (table_view workspace.now) }
    requires takes { choice.now.some
        ≡ takes private.now.root.now
        (names_behind private.now.paths.now) (table_view workspace.now) }
    requires adds { map parent_of (names_behind choice.now.paths.items)
        ≡ excluded_folders private.now.root.now
        (names_behind private.now.paths.now) (table_view workspace.now) }
    requires work { has_work private.now.root.now
        (names_behind private.now.paths.now) (table_view workspace.now) ≡ true }
    ensures ok { IfOk result (λ s. IsWorkspaceEdit private.now.root.now
        (names_behind private.now.paths.now) text.now
        (table_view old) (table_view workspace.now) (string_bytes s)) }
    ensures form { result ≡ Err EditFault.WorkspaceForm
        → HasBadForm private.now.root.now (names_behind private.now.paths.now) text.now }
    ensures read_back { result ≡ Err EditFault.ReadBack
        → HasFitForm private.now.root.now (names_behind private.now.paths.now) text.now }
    ensures toml { result ≢ Err EditFault.Toml }
    ensures inline { result ≢ Err EditFault.InlineTarget }
    ensures path { result ≢ Err EditFault.PathText }
{
    let cut = cut(alloc, text)?;
    if is_inline(&cut.pieces, WORKSPACE)
        || has_paths(choice.paths.as_slice()) && lacks_place(workspace, &cut.pieces)
    {
        return Err(EditFault::WorkspaceForm);
    }
    let Some(bytes) = joined_parts(alloc, workspace, choice, &cut.pieces, cut.tail)? else {
        return Err(EditFault::ReadBack);
    };
    let Ok(new) = String::from_utf8(bytes) else {
        return Err(EditFault::ReadBack);
    };
    if !reads_as_expected(alloc, private, old, new.as_str())? {
        return Err(EditFault::ReadBack);
    }
    Ok(new)
}

/// Returns the edited pieces, joined, if the place of each change is found.
fn joined_parts(
    alloc: Global,
    workspace: &Table,
    choice: &Choice<'_>,
    pieces: &[Piece<'_>],
    tail: &str,
) -> Result<Option<Vec<u8>>, AllocError>
    ensures { IfOk result (λ o. IfSome o (λ v.
        AreParts (IsMade choice.now.some (map parent_of (names_behind choice.now.paths.items))
        (table_view workspace.now)) (slice_view pieces.now) tail.now v.items)) }
{
    let mut new = Vec::new(alloc);
    for piece in pieces {
        match made_of(alloc, workspace, choice, piece)? {
            Some(part) => new.extend_from_slice(part.as_slice())?,
            None => return Ok(None),
        }
    }
    new.extend_from_slice(tail.as_bytes())?;
    Ok(Some(new))
}

/// Returns the edited piece, if the place of each change is found.
fn made_of(
    alloc: Global,
    workspace: &Table,
    choice: &Choice<'_>,
    piece: &Piece<'_>,
) -> Result<Option<Vec<u8>>, AllocError>
    ensures { IfOk result (λ o. IfSome o (λ v.
        IsMade choice.now.some (map parent_of (names_behind choice.now.paths.items))
        (table_view workspace.now) (piece_view piece.now) v.items)) }
{
    if is_pair(&piece.path, WORKSPACE, MEMBERS) && choice.some {
        return match without_elements(alloc, piece.text, choice.goes.as_slice())? {
            Some(text) => Ok(Some(text.into_bytes())),
            None => Ok(None),
        };
    }
    let adds = has_paths(choice.paths.as_slice());
    if is_pair(&piece.path, WORKSPACE, EXCLUDE) && adds {
        return added_inside(
            alloc,
            piece.text,
            choice.paths.as_slice(),
            is_filled(workspace),
        );
    }
    if is_header_of(piece, WORKSPACE) && value_at(workspace, EXCLUDE).is_none() && adds {
        let new = with_exclude_line(alloc, piece.text, choice.paths.as_slice())?;
        return Ok(Some(new));
    }
    let mut new = Vec::new(alloc);
    new.extend_from_slice(piece.text.as_bytes())?;
    Ok(Some(new))
}

/// Whether the workspace excludes something.
fn is_filled(workspace: &Table) -> bool
    ensures { result ≡ has_some (items_in (get_member exclude_key (table_view workspace.now))) }
{
    match value_at(workspace, EXCLUDE) {
        Some(value) => match value {
            Value::Array(items) => has_values(items),
            _ => false,
        },
        None => false,
    }
}

/// Returns whether folders can't be excluded: `exclude` isn't an array, or has no place.
fn lacks_place(workspace: &Table, pieces: &[Piece<'_>]) -> bool
    ensures { result ≡ has_no_place (table_view workspace.now) (slice_view pieces.now) }
{
    match value_at(workspace, EXCLUDE) {
        Some(value) => !is_array_value(value),
        None => !any_header(pieces),
    }
}

/// Whether a value is an array.
fn is_array_value(value: &Value) -> bool
    ensures { result ≡ is_array_data (view value.now) }
{
    match value {
        Value::Array(_) => true,
        _ => false,
    }
}

/// Whether there is a header `[workspace]`.
#[tactic(auto, using(hack_base::proofs::Chains::mapped))]
fn any_header(pieces: &[Piece<'_>]) -> bool
    ensures { result ≡ some_header (slice_view pieces.now) }
{
    pieces.iter().any(|piece| is_header_of(piece, WORKSPACE))
}

/// Whether some path has control characters.
#[tactic(auto, using(hack_base::proofs::Chains::mapped))]
fn any_control(paths: &[&str]) -> bool
    ensures { result ≡ some_path_control (names_behind paths.now) }
{
    paths.iter().any(|path| has_control(path))
}

/// Whether a text has control characters.
fn has_control(text: &str) -> bool
    ensures { result ≡ some_control text.now }
{
    text.as_bytes()
        .iter()
        .any(|byte| *byte < 32 || *byte == 127)
}
