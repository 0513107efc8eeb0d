//! How many patterns of so many candidates there are, which says how long the look for a sample is.

ghost use Rattle.std.specs.Prelude.{◌≡◌, ◌+◌, ◌-◌, ◌^◌, ℕ, IfOk, length, min, nat_lt};
ghost use Rattle.hack_planner.specs.PatternCounts.{CountsPatterns, many_patterns, patterns};

use std::alloc::{AllocError, Global};

/// A look for a sample is long where there are more patterns of so many candidates.
const MANY_PATTERNS: u128 = 1_000_000;

/// Whether there are many patterns of exactly `strength` of the candidates.
pub(crate) fn has_many_patterns(
    alloc: Global,
    candidates: usize,
    strength: usize,
) -> Result<bool, AllocError>
    ensures { IfOk result (λ many. many
        ≡ nat_lt many_patterns (patterns candidates strength)) }
{
    let count = count_patterns(alloc, candidates, strength)?;
    Ok(count > MANY_PATTERNS)
}

/// How many patterns there are of exactly `strength` of the candidates, each on or off, or the
/// greatest `u128` if there are more.
fn count_patterns(alloc: Global, candidates: usize, strength: usize) -> Result<u128, AllocError>
    ensures { IfOk result (λ n. n ≡ min (patterns candidates strength) (2 ^ 128 - 1)) }
{
    if strength > candidates {
        return Ok(0);
    }
    let mut counts = vec![in alloc; 0; strength]?;
    for _candidate in 0..candidates {
        add_candidate(&mut counts);
    }
    Ok(match counts.last() {
        Some(all) => *all,
        None => 1,
    })
}

/// Changes the counts to those for one more candidate. The count at place `k` is the number of
/// patterns of exactly `k + 1` candidates.
fn add_candidate(counts: &mut Vec<u128>)
    ensures size { length counts.new.items ≡ length counts.old.items }
    ensures counts { (n : ℕ) → CountsPatterns n counts.old.items
        → CountsPatterns (n + 1) counts.new.items }
{
    let mut fewer: u128 = 1;
    for place in 0..counts.len() {
        let count = counts[place];
        counts[place] = count.saturating_add(fewer.saturating_mul(2));
        fewer = count;
    }
}
