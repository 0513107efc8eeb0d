//! A manifest without its development dependencies.

ghost use Rattle.std.specs.Prelude.{◌≡◌, ◌≢◌, ◌⊎◌, ◌||◌, true, false, Some, None, ℕ, List};
ghost use Rattle.std.specs.Prelude.{MatchResult};
ghost use Rattle.std.specs.Prelude.{IfOk, IfSome, IfNone, string_bytes};
ghost use Rattle.toml.specs.Parse.{parse_document};
ghost use Rattle.toml.specs.View.{table_view};
ghost use Rattle.hack_base.specs.Names.{names_of};
ghost use Rattle.hack_manifest.specs.Paths.{AreCut};
ghost use Rattle.hack_manifest.specs.PieceView.{piece_view, slice_view, pieces_view};
ghost use Rattle.hack_edits.specs.Arrays.{IsCutInside};
ghost use Rattle.hack_edits.specs.Parts.{AreParts};
ghost use Rattle.hack_edits.specs.DevDeps.{some_dev, loses_texts, cuts_arrays, is_cut, some_inline};
ghost use Rattle.hack_edits.specs.DevDeps.{holds_inline, IsLeft, kept_text};
ghost use Rattle.hack_edits.specs.DevDeps.{HasNoDevPiece, IsEdit, IsWithoutDev};
ghost use Rattle.hack_edits.specs.DevDeps.{HasNoDev, HasInlineTarget, IsMisread};
ghost use Rattle.hack_edits.specs.DevTree.{reads_as_left};
ghost use Rattle.hack_edits.specs.Lookup.{has_dev};
ghost use Rattle.hack_edits.specs.Internal.{AreRecut, AppendsWhatIsLeft};

use crate::arrays::without_elements;
use crate::dev_tree::reads_as;
use crate::fault::EditFault;
use crate::key_paths::{is_dev_path, name};
use crate::lookup::{
    FEATURES, TARGET, feature_loses, feature_value, holds_dev, target_has_dev, targets_hold_dev,
    value_goes,
};
use crate::recut::keeps_key;
use crate::tables::tree_of;
use hack_manifest::manifest::{Piece, Pieces};
use hack_manifest::path::starts_table;
use hack_manifest::pieces::cut;
use std::alloc::{AllocError, Global};
use toml::{Table, Value};

/// Returns the manifest without its development dependencies: without their tables, and without the
/// texts in features that name a dependency for development alone. All other bytes stay, in order.
pub fn remove_dev_deps(alloc: Global, text: &str) -> Result<String, EditFault>
    ensures ok { IfOk result (λ s. IsWithoutDev text.now (string_bytes s)) }
    ensures unchanged { HasNoDev text.now → MatchResult result
        (λ s. string_bytes s ≡ text.now) (λ e. e ≡ EditFault.Memory) }
    ensures toml { result ≡ Err EditFault.Toml → parse_document text.now ≡ None }
    ensures inline { result ≡ Err EditFault.InlineTarget → HasInlineTarget text.now }
    ensures read_back { result ≡ Err EditFault.ReadBack → IsMisread text.now }
    ensures form { result ≢ Err EditFault.WorkspaceForm }
    ensures path { result ≢ Err EditFault.PathText }
{
    let Some(old) = tree_of(alloc, text)? else {
        return Err(EditFault::Toml);
    };
    let cut = cut(alloc, text)?;
    if !has_work(&old, &cut.pieces) {
        let same = String::from_str(alloc, text)?;
        return Ok(same);
    }
    without_dev_pieces(alloc, old, &cut)
}

/// Edits a manifest that has something to take out.
fn without_dev_pieces(alloc: Global, old: Table, cut: &Pieces<'_>) -> Result<String, EditFault>
    requires { (text : List ℕ) × AreCut text (pieces_view cut.now) cut.now.tail.now }
    ensures ok { IfOk result (λ s.
        IsEdit (table_view old) (pieces_view cut.now) cut.now.tail.now (string_bytes s)) }
    ensures inline { result ≡ Err EditFault.InlineTarget
        → some_inline (table_view old) (pieces_view cut.now) ≡ true }
    ensures open_tables { result ≡ Err EditFault.ReadBack
        → some_inline (table_view old) (pieces_view cut.now) ≡ false }
    ensures read_back { result ≡ Err EditFault.ReadBack
        → (cuts_arrays (table_view old) (pieces_view cut.now) ≡ true)
        ⊎ (reads_as_left (table_view old)
        (parse_document (kept_text (pieces_view cut.now) cut.now.tail.now)) ≡ false) }
    ensures toml { result ≢ Err EditFault.Toml }
    ensures form { result ≢ Err EditFault.WorkspaceForm }
    ensures path { result ≢ Err EditFault.PathText }
{
    if any_inline(&old, &cut.pieces) {
        return Err(EditFault::InlineTarget);
    }
    let Some(Left { text, known }) = join_pieces(alloc, &old, &cut.pieces, cut.tail)? else {
        return Err(EditFault::ReadBack);
    };
    if !reads_as(alloc, old, text.as_str())? {
        return Err(EditFault::ReadBack);
    }
    if known {
        return Ok(text);
    }
    if has_dev_piece(alloc, text.as_str())? {
        return Err(EditFault::ReadBack);
    }
    Ok(text)
}

/// Whether there is something to take out: a table of the tree, or a piece.
fn has_work(old: &Table, pieces: &[Piece<'_>]) -> bool
    ensures { result ≡ (has_dev (table_view old.now) || some_dev (slice_view pieces.now)) }
{
    holds_dev(old) || any_dev(pieces)
}

/// Whether some piece is one of development dependencies.
#[tactic(auto, using(hack_base::proofs::Chains::mapped))]
fn any_dev(pieces: &[Piece<'_>]) -> bool
    ensures { result ≡ some_dev (slice_view pieces.now) }
{
    pieces.iter().any(|piece| is_dev_path(&piece.path))
}

/// Whether some piece of a text is one of development dependencies.
fn has_dev_piece(alloc: Global, text: &str) -> Result<bool, AllocError>
    ensures { IfOk result (λ b. b ≡ false → HasNoDevPiece text.now) }
{
    let cut = cut(alloc, text)?;
    Ok(any_dev(&cut.pieces))
}

/// What is left of pieces, joined.
#[derive(Drop)]
struct Left {
    text: String,
    /// Whether what is left of each piece is known to be that piece again, with its path.
    known: bool,
}

/// What is left of the pieces, if the brackets of each array that loses texts are found.
fn join_pieces(
    alloc: Global,
    old: &Table,
    pieces: &[Piece<'_>],
    tail: &str,
) -> Result<Option<Left>, AllocError>
    ensures left { IfOk result (λ o. IfSome o (λ j.
        AreParts (IsLeft (table_view old.now)) (slice_view pieces.now) tail.now (string_bytes j.text))) }
    ensures known { IfOk result (λ o. IfSome o (λ j. j.known ≡ true
        → AreRecut (slice_view pieces.now) tail.now (string_bytes j.text))) }
    ensures unknown { IfOk result (λ o. IfSome o (λ j. j.known ≡ false
        → cuts_arrays (table_view old.now) (slice_view pieces.now) ≡ true)) }
    ensures none { IfOk result (λ o.
        IfNone o (cuts_arrays (table_view old.now) (slice_view pieces.now) ≡ true)) }
{
    let mut text = String::new(alloc);
    let mut known = true;
    for piece in pieces {
        match push_left(alloc, old, piece, &mut text)? {
            Some(same) => known = known && same,
            None => return Ok(None),
        }
    }
    text.push_str(tail)?;
    Ok(Some(Left { text, known }))
}

/// Appends what is left of a piece to the text, if the brackets of an array that loses texts are
/// found, and returns whether that is known to be a piece again.
fn push_left(
    alloc: Global,
    old: &Table,
    piece: &Piece<'_>,
    text: &mut String,
) -> Result<Option<bool>, AllocError>
    ensures left { IfOk result (λ o. IfSome o (λ known. AppendsWhatIsLeft (table_view old.now)
        (piece_view piece.now) known (string_bytes text.old) (string_bytes text.new))) }
    ensures none { IfOk result (λ o. IfNone o
        (is_cut (table_view old.now) (piece_view piece.now) ≡ true)) }
{
    if is_dev_path(&piece.path) {
        return Ok(Some(true));
    }
    if path_loses(old, &piece.path) {
        return push_thinned(alloc, old, piece, text);
    }
    text.push_str(piece.text)?;
    Ok(Some(true))
}

/// Appends a feature to the text, without its texts that are removed.
fn push_thinned(
    alloc: Global,
    old: &Table,
    piece: &Piece<'_>,
    text: &mut String,
) -> Result<Option<bool>, AllocError>
    requires { is_cut (table_view old.now) (piece_view piece.now) ≡ true }
    ensures { IfOk result (λ o. IfSome o (λ known. AppendsWhatIsLeft (table_view old.now)
        (piece_view piece.now) known (string_bytes text.old) (string_bytes text.new))) }
{
    let Some(part) = thinned_feature(alloc, old, piece)? else {
        return Ok(None);
    };
    text.push_str(part.as_str())?;
    let known = keeps_key(alloc, piece.text, part.as_str())?;
    Ok(Some(known))
}

/// Returns a feature without the texts that are removed.
fn thinned_feature(
    alloc: Global,
    old: &Table,
    piece: &Piece<'_>,
) -> Result<Option<String>, AllocError>
    ensures { IfOk result (λ o. IfSome o (λ s. IsCutInside piece.now.text.now (string_bytes s))) }
{
    match feature_value(old, name(&piece.path, 1)) {
        Some(value) => {
            let goes = which_go(alloc, old, value)?;
            without_elements(alloc, piece.text, goes.as_slice())
        }
        None => Ok(None),
    }
}

/// Returns which items of an array are texts that are removed.
fn which_go(alloc: Global, old: &Table, value: &Value) -> Result<Vec<bool>, AllocError> {
    let mut goes = Vec::new(alloc);
    if let Value::Array(array) = value {
        for item in array {
            goes.push(value_goes(old, item))?;
        }
    }
    Ok(goes)
}

/// Returns whether a path is that of a feature from whose array texts are removed.
fn path_loses(old: &Table, path: &[String]) -> bool
    ensures { result ≡ loses_texts (table_view old.now) (names_of path.now) }
{
    match path {
        [top, name] => top.as_str() == FEATURES && feature_loses(old, name.as_str()),
        _ => false,
    }
}

/// Whether some piece holds development dependencies inline.
#[tactic(auto, using(hack_base::proofs::Chains::mapped))]
fn any_inline(old: &Table, pieces: &[Piece<'_>]) -> bool
    ensures { result ≡ some_inline (table_view old.now) (slice_view pieces.now) }
{
    pieces.iter().any(|piece| holds_inline(old, piece))
}

/// Whether a piece is a key with its value at `target` or `target.X`, which holds development
/// dependencies.
fn holds_inline(old: &Table, piece: &Piece<'_>) -> bool
    ensures { result ≡ holds_inline (table_view old.now) (piece_view piece.now) }
{
    if starts_table(piece.text) || name(&piece.path, 0) != TARGET {
        return false;
    }
    piece.path.len() == 1 && targets_hold_dev(old)
        || piece.path.len() == 2 && target_has_dev(old, name(&piece.path, 1))
}
