//! How many runs failed, and how many of these show one of some patterns.

ghost use Rattle.std.specs.Prelude.{◌≡◌, MatchBool, true};
ghost use Rattle.hack_samples.specs.Sets.{rows_of};
ghost use Rattle.hack_suspects.specs.Suspects.{outcomes_of};
ghost use Rattle.hack_suspects.specs.Faults.{ShowsOneOf};
ghost use Rattle.hack_suspects.specs.Counts.{Fails, FailsWith, IsNumberOf};

use crate::patterns::row_shows;
use crate::suspect::RunOutcome;
use hack_samples::Setting;

/// Returns how many of the runs failed.
pub fn count_failed(outcomes: &[RunOutcome]) -> usize
    ensures { IsNumberOf Fails (outcomes_of outcomes.now) result }
{
    outcomes.iter().filter(|run| run.failed).count()
}

/// Returns how many of the runs failed and show one of the patterns.
pub fn count_showing(outcomes: &[RunOutcome], patterns: &[Vec<Setting>]) -> usize
    ensures { IsNumberOf (FailsWith (rows_of patterns.now)) (outcomes_of outcomes.now) result }
{
    let mut count: usize = 0;
    for run in outcomes {
        if fails_with(run, patterns) {
            count += 1;
        }
    }
    count
}

/// Whether the run failed and shows one of the patterns.
fn fails_with(run: &RunOutcome, patterns: &[Vec<Setting>]) -> bool
    ensures { MatchBool result
        ((run.now.failed ≡ true) × ShowsOneOf (rows_of patterns.now) run.now.on.items)
        ((run.now.failed ≡ true) × ShowsOneOf (rows_of patterns.now) run.now.on.items → ⊥) }
{
    run.failed && shows_one_of(run.on.as_slice(), patterns)
}

/// Whether the row shows one of the patterns.
fn shows_one_of(row: &[bool], patterns: &[Vec<Setting>]) -> bool
    ensures { MatchBool result (ShowsOneOf (rows_of patterns.now) row.now)
        (ShowsOneOf (rows_of patterns.now) row.now → ⊥) }
{
    patterns.iter().any(|pattern| row_shows(row, pattern))
}
