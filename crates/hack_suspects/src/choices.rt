//! How many selections there are of a few of the candidates.

ghost use Rattle.std.specs.Prelude.{◌≡◌, ◌+◌, ◌-◌, ◌^◌, ℕ, length, min, IfOk};
ghost use Rattle.hack_suspects.specs.Suspects.{choices};
ghost use Rattle.hack_suspects.specs.InternalWalks.{CountsChoices};

use std::alloc::{AllocError, Global};

/// Returns how many selections there are of at most `strength` of the candidates, or the greatest
/// `u128` if there are more.
pub(crate) fn choices(alloc: Global, candidates: usize, strength: usize) -> Result<u128, AllocError>
    ensures { IfOk result (λ n. n ≡ min (choices candidates strength) (2 ^ 128 - 1)) }
{
    let size = strength.min(candidates);
    let mut counts = vec![in alloc; 1; size]?;
    for _candidate in 0..candidates {
        add_candidate(&mut counts);
    }
    Ok(counts.last().copied().unwrap_or(1))
}

/// Changes the counts to those for one more candidate. The count at index `k` is the number of
/// selections of at most `k + 1` candidates.
fn add_candidate(counts: &mut Vec<u128>)
    ensures size { length counts.new.items ≡ length counts.old.items }
    ensures counts { (n : ℕ) → CountsChoices n counts.old.items
        → CountsChoices (n + 1) counts.new.items }
{
    let mut fewer: u128 = 1;
    for place in 0..counts.len() {
        let count = counts[place];
        counts[place] = count.saturating_add(fewer);
        fewer = count;
    }
}
