//! Who tries builds.

ghost use Rattle.std.specs.Prelude.{◌++◌, ◌∷◌, [], List};
ghost use Rattle.hack_conflicts.specs.Runs.{Run};

use crate::tried::BuildOutcome;

/// Tries builds with sets of positions.
pub trait Builds {
    /// A relation of the builder before and after these runs, in this order.
    ghost ran: { List Run → Self → Self → Type 0 };

    /// Tries a build with the set, which has a mark for each position. A builder that can't say
    /// whether it passes, for example since a program can't be started, keeps the fault to itself and
    /// answers `Broken`; the search then ends, and asks it no more.
    fn build(&mut self, set: &[bool]) -> BuildOutcome
        ensures { ran (record { set = set.now; outcome = result } ∷ []) self.old self.new };

    /// Without a run the relation holds of each builder and itself.
    ghost ran_none: { (a : Self) → ran [] a a };

    /// The relations of some runs and of more runs after them give that of all.
    ghost ran_more: { (runs more : List Run) (a b c : Self) → ran runs a b → ran more b c
        → ran (runs ++ more) a c };
}
