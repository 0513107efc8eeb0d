//! A piece of a plan, which one of several machines runs: `m/n` is the m-th of n pieces.

ghost use Rattle.std.specs.Prelude.{◌≡◌, ◌<◌, ◌≤◌, ◌↔◌, ◌⊎◌, List, ℕ, IsTrue};
ghost use Rattle.std.specs.Prelude.{IfOk, IfErr, MatchResult, IfSome, IfNone, Some, None};
ghost use Rattle.hack_partition.specs.declared.partition.PartitionKind.{PartitionKind as Kind};
ghost use Rattle.hack_partition.specs.Pieces.{InPiece, InJustOnePiece, joined_blocks};
ghost use Rattle.hack_partition.specs.Partitions.{IsPiece, IsNoPiece, RefusesPiece, piece_of};
ghost use Rattle.hack_partition.specs.Partitions.{kind_name, RefusesKind, kind_of};

use std::alloc::{AllocError, Global};
use thiserror::Error;

/// Why a piece, or a kind of pieces, can't be read.
#[derive(Debug, Drop, Error)]
pub enum PartitionFault {
    /// The text isn't `m/n` with numbers `0 < m <= n`.
    #[error("bad or out-of-range partition: {0}")]
    Piece(String),
    /// The text isn't the name of a kind.
    #[error("argument for --partition-kind must be block or turn, but found `{0}`")]
    Kind(String),
    #[error("out of memory")]
    Memory,
}

impl From<AllocError> for PartitionFault {
    ghost use Rattle.hack_partition.specs.declared.partition.PartitionFault.TheVariants.{Memory};

    ghost from_gives = { λ _ e. e ≡ Memory };

    fn from(_e: AllocError) -> PartitionFault {
        PartitionFault::Memory
    }
}

/// How the places of a plan are assigned to its pieces.
#[derive(Clone, Copy, Debug, PartialEq, Eq)]
pub enum PartitionKind {
    /// Each piece is a slice; all slices but the last ones have the same length.
    Block,
    /// Places are assigned to the pieces in rotation.
    Turn,
}

impl PartitionKind {
    /// Reads `block` or `turn`.
    pub fn parse(alloc: Global, text: &str) -> Result<PartitionKind, PartitionFault>
        ensures kind { IfOk result (λ kind. text.now ≡ kind_name kind) }
        ensures refused { IfErr result (RefusesKind text.now) }
        ensures value { MatchResult result (λ kind. kind_of text.now ≡ Some kind)
            (λ e. (e ≡ PartitionFault.Memory) ⊎ (kind_of text.now ≡ None)) }
    {
        match text {
            "block" => Ok(PartitionKind::Block),
            "turn" => Ok(PartitionKind::Turn),
            _ => Err(PartitionFault::Kind(String::from_str(alloc, text)?)),
        }
    }
}

/// One of the pieces of a plan.
#[derive(Clone, Copy, Debug, PartialEq, Eq)]
pub struct Partition {
    /// Which piece it is, from 1.
    pub piece: u64,
    /// How many pieces there are.
    pub count: u64,
    pub kind: PartitionKind,
    ghost from_one: { 0 < piece },
    ghost within: { piece ≤ count },
}

/// The piece that a text names.
fn read_piece(text: &str) -> Option<Partition>
    ensures piece { IfSome result (λ p. IsPiece text.now p.piece p.count) }
    ensures blocks { IfSome result (λ p. p.kind ≡ PartitionKind.Block) }
    ensures none { IfNone result (IsNoPiece text.now) }
{
    let (piece, count) = text.split_once('/')?;
    let piece = piece.parse::<u64>().ok()?;
    let count = count.parse::<u64>().ok()?;
    if piece == 0 || count < piece {
        return None;
    }
    Some(Partition {
        piece,
        count,
        kind: PartitionKind::Block,
    })
}

impl Partition {
    /// Reads `m/n`, the m-th of n pieces, with the kind `Block`.
    pub fn parse(alloc: Global, text: &str) -> Result<Partition, PartitionFault>
        ensures piece { IfOk result (λ p. IsPiece text.now p.piece p.count) }
        ensures blocks { IfOk result (λ p. p.kind ≡ PartitionKind.Block) }
        ensures refused { IfErr result (RefusesPiece text.now) }
        ensures value { MatchResult result
            (λ p. piece_of text.now ≡ Some (p.piece, p.count))
            (λ e. (e ≡ PartitionFault.Memory) ⊎ (piece_of text.now ≡ None)) }
    {
        match read_piece(text) {
            Some(partition) => Ok(partition),
            None => Err(PartitionFault::Piece(String::from_str(alloc, text)?)),
        }
    }

    /// The same piece, with places assigned as `kind` says.
    pub fn with_kind(self, kind: PartitionKind) -> Partition
        ensures { result ≡ record self { kind = kind } }
    {
        Partition {
            piece: self.piece,
            count: self.count,
            kind,
        }
    }

    /// Whether a place of a plan, from 0, is in the piece; `total` is the plan's length.
    pub fn holds(&self, place: u64, total: u64) -> bool
        requires { place < total }
        ensures holds { IsTrue result
            ↔ InPiece self.now.kind self.now.piece self.now.count total place }

        // Each place is in exactly one of the pieces, however places are assigned.
        ensures once { (kind : Kind) (p : ℕ) → p < total
            → InJustOnePiece kind self.now.count total p }

        // The blocks of any plan, concatenated, are the plan, also where it is empty. Its places
        // may be of any type: here they are numbers.
        ensures joined { (plan : List ℕ) → joined_blocks self.now.count plan ≡ plan }
    {
        match self.kind {
            PartitionKind::Block => place / total.div_ceil(self.count) == self.piece - 1,
            PartitionKind::Turn => place % self.count == self.piece - 1,
        }
    }
}
