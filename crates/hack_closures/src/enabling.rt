//! What each position enables.

ghost use Rattle.std.specs.Prelude.{◌<◌, ◌↔◌, [], ◌∷◌, All, IfOk, IsTrue};
ghost use Rattle.hack_conflicts.specs.Sets.{rows_of};
ghost use Rattle.hack_features.specs.Rules.{CandidateReaches};
ghost use Rattle.hack_features.specs.View.{choice_of, size_of};
ghost use Rattle.hack_features.specs.Settings.{AreSettings};
ghost use Rattle.hack_closures.specs.Closures.{AreAlone, TurnsOn};
ghost use Rattle.hack_closures.specs.Internal.{AreTurnedOn, AreAllTurnedOn, AreOnWithAll};
ghost use Rattle.hack_closures.specs.Internal.{AreEnabledRows};

use crate::marks::{has, marks_of};
use hack_features::Rules;
use hack_samples::Allowed;
use std::alloc::{AllocError, Global};

/// The candidates that are exclusive alone.
pub(crate) fn alone(alloc: Global, rules: &Rules) -> Result<Vec<usize>, AllocError>
    ensures { IfOk result (λ alone. AreAlone (choice_of rules.now) alone.items) }
{
    let mut alone = Vec::new(alloc);
    for p in 0..rules.positions() {
        if rules.is_exclusive_alone(p) {
            alone.push(p)?;
        }
    }
    Ok(alone)
}

/// Whether candidate `p` reaches each exclusion group that candidate `q` reaches.
fn reaches_as(rules: &Rules, p: usize, q: usize) -> bool
    requires first { p < size_of rules.now }
    requires second { q < size_of rules.now }
    ensures { IsTrue result ↔ All (λ group. CandidateReaches (choice_of rules.now) group q
        → CandidateReaches (choice_of rules.now) group p) (choice_of rules.now).exclusive }
{
    for group in 0..rules.exclusion_groups() {
        if rules.reaches(group, q) && !rules.reaches(group, p) {
            return false;
        }
    }
    true
}

/// Whether candidate `p` turns candidate `q` on. `settings` says which candidates are on with `p`.
fn turns_on(rules: &Rules, settings: &[bool], p: usize, q: usize) -> bool
    requires first { p < size_of rules.now }
    requires second { q < size_of rules.now }
    requires settings { AreSettings (choice_of rules.now) (p ∷ []) settings.now }
    ensures { IsTrue result ↔ TurnsOn (choice_of rules.now) p q }
{
    has(settings, q) && reaches_as(rules, p, q)
}

/// Whether candidate `p` turns on each of these candidates.
fn turned_on(
    alloc: Global,
    rules: &Rules,
    alone: &[usize],
    p: usize,
) -> Result<Vec<bool>, AllocError>
    requires low { p < size_of rules.now }
    requires all_low { All (λ q. q < size_of rules.now) alone.now }
    ensures { IfOk result (λ row. AreTurnedOn (choice_of rules.now) alone.now p row.items) }
{
    let settings = rules.settings(alloc, &[p])?;
    let mut row = Vec::new(alloc);
    for q in alone {
        row.push(turns_on(rules, settings.as_slice(), p, *q))?;
    }
    Ok(row)
}

/// For each of these candidates whether it turns on each of them.
fn all_turned_on(
    alloc: Global,
    rules: &Rules,
    alone: &[usize],
) -> Result<Vec<Vec<bool>>, AllocError>
    requires { All (λ q. q < size_of rules.now) alone.now }
    ensures { IfOk result (λ rows.
        AreAllTurnedOn (choice_of rules.now) alone.now (rows_of rows.items)) }
{
    let mut rows = Vec::new(alloc);
    for p in alone {
        rows.push(turned_on(alloc, rules, alone, *p)?)?;
    }
    Ok(rows)
}

/// Whether each of these candidates is on with all features, and a mark for all features
/// themselves.
fn on_with_all(alloc: Global, rules: &Rules, alone: &[usize]) -> Result<Vec<bool>, AllocError>
    requires { All (λ q. q < size_of rules.now) alone.now }
    ensures { IfOk result (λ row. AreOnWithAll (choice_of rules.now) alone.now row.items) }
{
    let settings = rules.settings_of_all(alloc)?;
    let mut row = marks_of(alloc, settings.as_slice(), alone)?;
    row.push(true)?;
    Ok(row)
}

/// What each position enables: those of these candidates, and that of all features, if `all`.
pub(crate) fn enabling(
    alloc: Global,
    rules: &Rules,
    alone: &[usize],
    all: bool,
) -> Result<Vec<Vec<bool>>, AllocError>
    requires { All (λ q. q < size_of rules.now) alone.now }
    ensures { IfOk result (λ rows.
        AreEnabledRows (choice_of rules.now) alone.now all (rows_of rows.items)) }
{
    let mut rows = all_turned_on(alloc, rules, alone)?;
    if all {
        rows.push(on_with_all(alloc, rules, alone)?)?;
    }
    Ok(rows)
}
