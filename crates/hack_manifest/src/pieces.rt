//! A text cut into pieces with their key paths. A piece is a header or a key with its value, with
//! the blank lines and comments before it.

ghost use Rattle.std.specs.Prelude.{◌≡◌, ◌&&◌, [], ◌∷◌, not, None, IsSome, IfOk};
ghost use Rattle.std.specs.Cmp.Lexicographic.{pointwise};
ghost use Rattle.std.specs.Str.{bytes_eq};
ghost use Rattle.toml.specs.Parse.{parse_document};
ghost use Rattle.hack_base.specs.Names.{names_of};
ghost use Rattle.hack_manifest.specs.Paths.{AreCut, is_header, next_header};
ghost use Rattle.hack_manifest.specs.PieceView.{pieces_view, slice_view, piece_view};
ghost use Rattle.hack_manifest.specs.Manifest.{is_inline};
ghost use Rattle.hack_manifest.specs.declared.pieces.PiecesFault.TheVariants.{Memory, Toml};

use crate::path::{path_of, starts_table};
use crate::runs::first_run;
use hack_base::copies::push_copies;
use std::alloc::{AllocError, Global};
use thiserror::Error;

/// A piece of a text.
#[derive(Drop)]
pub struct Piece<'a> {
    /// The piece itself, including the blank lines and comments before it.
    pub text: &'a str,
    /// The names of its header, or of the last header before it and of its own key.
    pub path: Vec<String>,
}

/// The pieces of a text.
#[derive(Drop)]
pub struct Pieces<'a> {
    /// The pieces, in order.
    pub pieces: Vec<Piece<'a>>,
    /// What remains after the last piece, such as comments: no run of its lines has a key.
    pub tail: &'a str,
}

/// Why a text can't be cut.
#[derive(Debug, Drop, Error)]
pub enum PiecesFault {
    /// The whole text is no TOML document.
    #[error("the text is not a TOML document")]
    Toml,
    #[error("out of memory")]
    Memory,
}

impl From<AllocError> for PiecesFault {
    ghost from_gives = { λ _ e. e ≡ Memory };

    fn from(_e: AllocError) -> PiecesFault {
        PiecesFault::Memory
    }
}

impl<'a> Pieces<'a> {
    /// Cuts a text that `toml` reads: from the start, repeatedly, the shortest run of whole lines
    /// that `toml` reads by itself as a document with a nonempty tree.
    pub fn cut(alloc: Global, text: &'a str) -> Result<Pieces<'a>, PiecesFault>
        ensures ok { IfOk result (λ cut. AreCut text.now (pieces_view cut) cut.tail.now) }
        ensures read { IfOk result (λ _. IsSome (parse_document text.now)) }
        ensures refused { result ≡ Err Toml → parse_document text.now ≡ None }
    {
        match toml::table_from_str(alloc, text) {
            Ok(_) => Ok(cut(alloc, text)?),
            Err(e) => {
                if e.is_memory() {
                    Err(PiecesFault::Memory)
                } else {
                    Err(PiecesFault::Toml)
                }
            }
        }
    }
}

/// The path of the last header after a piece.
fn header_behind(
    alloc: Global,
    header: Vec<String>,
    piece: &str,
    path: &[String],
) -> Result<Vec<String>, AllocError>
    ensures { IfOk result (λ names. names_of names.items ≡ next_header (names_of header.items)
        (record { text = piece.now; path = names_of path.now })) }
{
    if starts_table(piece) {
        let mut own = Vec::new(alloc);
        push_copies(&mut own, path)?;
        Ok(own)
    } else {
        Ok(header)
    }
}

/// The pieces of any text with their paths, and the tail.
pub fn cut(alloc: Global, text: &str) -> Result<Pieces<'_>, AllocError>
    ensures { IfOk result (λ cut. AreCut text.now (pieces_view cut) cut.tail.now) }
{
    let mut found = Vec::new(alloc);
    let mut header = Vec::new(alloc);
    let mut rest = text;
    'pieces: while let Some(n) = first_run(alloc, rest)? {
        let (piece, after) = rest.split_at(n);
        let path = path_of(alloc, &header, piece)?;
        header = header_behind(alloc, header, piece, &path)?;
        found.push(Piece { text: piece, path })?;
        rest = after;
    }
    Ok(Pieces {
        pieces: found,
        tail: rest,
    })
}

/// Whether a piece is a key of just this name with its value.
fn is_value_of(piece: &Piece<'_>, name: &str) -> bool
    ensures { result ≡ (pointwise bytes_eq (names_of piece.now.path.items) (name.now ∷ [])
        && not (is_header piece.now.text.now)) }
{
    match piece.path.as_slice() {
        [only] => only.as_str() == name && !starts_table(piece.text),
        _ => false,
    }
}

/// Whether some piece is a key of just this name with its value: then a table of this name is
/// written inline.
#[tactic(auto, using(hack_base::proofs::Chains::mapped))]
pub fn is_inline(pieces: &[Piece<'_>], name: &str) -> bool
    ensures { result ≡ is_inline name.now (slice_view pieces.now) }
{
    pieces.iter().any(|piece| is_value_of(piece, name))
}
