//! How far a call has got in its plan.

ghost use Rattle.std.specs.Prelude.{◌<◌, ◌↔◌, ℕ, IsTrue};
ghost use Rattle.hack_partition.specs.Pieces.{InPiece, InJustOnePiece};
ghost use Rattle.hack_partition.specs.declared.partition.PartitionKind.{PartitionKind as Kind};

use hack_partition::partition::Partition;

/// The length of a plan, and how many of its places are done.
#[derive(Clone, Copy)]
pub struct Progress {
    pub total: u64,
    pub count: u64,
}

impl Progress {
    /// Whether the next place is in this piece.
    pub fn in_partition(&self, partition: &Partition) -> bool
        requires { self.now.count < self.now.total }
        ensures holds { IsTrue result ↔ InPiece partition.now.kind partition.now.piece
            partition.now.count self.now.total self.now.count }

        // Each place of the plan is in exactly one piece, however places are assigned.
        ensures once { (kind : Kind) (place : ℕ) → place < self.now.total
            → InJustOnePiece kind partition.now.count self.now.total place }
    {
        partition.holds(self.count, self.total)
    }
}
