//! The order of use: of patterns, those that most failed runs show first.

ghost use Rattle.std.specs.Prelude.{◌≡◌, OnErr, OnOk};
ghost use Rattle.hack_samples.specs.Sets.{rows_of};
ghost use Rattle.hack_suspects.specs.Suspects.{outcomes_of};
ghost use Rattle.hack_suspects.specs.Uses.{AreInOrderOfUse, is_use, uses};

use crate::patterns::row_shows;
use crate::suspect::RunOutcome;
use hack_samples::Setting;
use std::alloc::{AllocError, Global};
use std::cmp::Reverse;

/// Puts patterns in the order of use: those that most failed runs show come first, and those that
/// as many show stay in the order that they have. After an error they are as before.
pub fn sort_by_use(
    alloc: Global,
    outcomes: &[RunOutcome],
    patterns: &mut [Vec<Setting>],
) -> Result<(), AllocError>
    ensures ok { OnOk result (AreInOrderOfUse (outcomes_of outcomes.now) (rows_of patterns.old)
        (rows_of patterns.new)) }
    ensures err { OnErr result (patterns.new ≡ patterns.old) }
{
    patterns.sort_by_cached_key(alloc, |pattern| Reverse(count_uses(outcomes, pattern)))
}

/// How many of the runs failed and show the pattern.
fn count_uses(outcomes: &[RunOutcome], pattern: &Vec<Setting>) -> usize
    ensures { result ≡ uses (outcomes_of outcomes.now) pattern.now.items }
{
    outcomes.iter().filter(|run| is_use(run, pattern)).count()
}

/// Whether the run failed and shows the pattern.
fn is_use(run: &RunOutcome, pattern: &[Setting]) -> bool
    ensures { result ≡ is_use pattern.now
        (record { on = run.now.on.items; failed = run.now.failed }) }
{
    run.failed && row_shows(run.on.as_slice(), pattern)
}
