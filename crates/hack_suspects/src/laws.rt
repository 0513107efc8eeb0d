//! Laws: functions that do nothing, each of which has a law over definitions as its contract.

ghost use Rattle.std.specs.Prelude.{ℕ, List};
ghost use Rattle.hack_samples.specs.declared.sets.Setting.{Setting};
ghost use Rattle.hack_suspects.specs.Faults.{FailBy, FaultsAreFound};
ghost use Rattle.hack_suspects.specs.Counts.{TellTheFailed};
ghost use Rattle.hack_suspects.specs.Suspects.{AreSuspects, RunOutcome};

/// Suspects find faults. A fault is a pattern. If exactly those runs failed that show one of the
/// faults, then each fault of at most `t` candidates below `n`, in increasing order, that some run
/// shows is a suspect or has one as a part.
pub fn finds_faults()
    ensures { (outcomes : List RunOutcome) (n t : ℕ) (faults : List (List Setting))
        → FailBy faults outcomes → FaultsAreFound outcomes n t faults }
{}

/// A failed run shows a suspect of at most `t` candidates below `n` exactly where it shows a
/// pattern of at most so many of them that no passed run shows.
pub fn suspects_tell_the_failed()
    ensures { (outcomes : List RunOutcome) (n t : ℕ) (found : List (List Setting))
        → AreSuspects outcomes n t found → TellTheFailed outcomes n t found }
{}
