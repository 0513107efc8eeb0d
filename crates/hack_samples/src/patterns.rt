//! Patterns, and whether sets show them.

ghost use Rattle.std.specs.Prelude.{◌≡◌, ◌++◌, ◌∷◌, [], IfOk, MatchBool};
ghost use Rattle.hack_samples.specs.Sets.{rows_of, tables_of};
ghost use Rattle.hack_samples.specs.Samples.{Shows, SomeShows};

use crate::sets::{Setting, is_on};
use std::alloc::{AllocError, Global};

/// Whether the set shows the pattern.
pub(crate) fn shows(providers: &[Vec<Vec<usize>>], set: &[bool], pattern: &[Setting]) -> bool
    ensures { MatchBool result (Shows (tables_of providers.now) pattern.now set.now)
        (Shows (tables_of providers.now) pattern.now set.now → ⊥) }
{
    pattern.iter().all(|setting| is_on(providers, set, setting.candidate) == setting.on)
}

/// Whether one of the sets shows the pattern.
pub(crate) fn some_shows(
    providers: &[Vec<Vec<usize>>],
    sets: &[Vec<bool>],
    pattern: &[Setting],
) -> bool
    ensures { MatchBool result (SomeShows (tables_of providers.now) pattern.now (rows_of sets.now))
        (SomeShows (tables_of providers.now) pattern.now (rows_of sets.now) → ⊥) }
{
    sets.iter().any(|set| shows(providers, set, pattern))
}

/// The pattern with one more setting.
pub(crate) fn with(
    alloc: Global,
    pattern: &[Setting],
    setting: Setting,
) -> Result<Vec<Setting>, AllocError>
    ensures { IfOk result (λ more. more.items ≡ pattern.now ++ setting ∷ []) }
{
    let mut more = Vec::from_slice(alloc, pattern)?;
    more.push(setting)?;
    Ok(more)
}

/// How a pattern may be continued: by up to `more` settings, of candidates below `limit` in
/// descending order.
#[derive(Clone, Copy)]
pub(crate) struct Further {
    pub(crate) limit: usize,
    pub(crate) more: usize,
}
