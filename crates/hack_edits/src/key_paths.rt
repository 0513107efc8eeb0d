//! The key paths of the pieces that edits change.

ghost use Rattle.std.specs.Prelude.{◌≡◌};
ghost use Rattle.hack_base.specs.Names.{names_of};
ghost use Rattle.hack_manifest.specs.PieceView.{piece_view};
ghost use Rattle.hack_edits.specs.KeyPaths.{path_name_at, is_dev, is_pair, is_header_of};

use crate::lookup::{DEV, TARGET};
use hack_manifest::manifest::Piece;
use hack_manifest::path::starts_table;

/// A name of a path, empty where there is none.
pub fn name(path: &[String], i: usize) -> &str
    ensures { result.now ≡ path_name_at (names_of path.now) i }
{
    match path.get(i) {
        Some(name) => name.as_str(),
        None => "",
    }
}

/// Whether a path is that of development dependencies.
pub fn is_dev_path(path: &[String]) -> bool
    ensures { result ≡ is_dev (names_of path.now) }
{
    name(path, 0) == DEV || name(path, 0) == TARGET && name(path, 2) == DEV
}

/// Whether a path is these two names.
pub fn is_pair(path: &[String], first: &str, second: &str) -> bool
    ensures { result ≡ is_pair first.now second.now (names_of path.now) }
{
    path.len() == 2 && (name(path, 0) == first && name(path, 1) == second)
}

/// Whether a piece is a header of just this name.
pub fn is_header_of(piece: &Piece<'_>, name: &str) -> bool
    ensures { result ≡ is_header_of name.now (piece_view piece.now) }
{
    match piece.path.as_slice() {
        [only] => only.as_str() == name && starts_table(piece.text),
        _ => false,
    }
}
