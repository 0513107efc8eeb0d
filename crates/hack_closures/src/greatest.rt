//! The greatest members of a set: none of them enables another, and each member is enabled by one
//! of them. Of members that enable each other the least one stays.

ghost use Rattle.std.specs.Prelude.{◌≡◌, ◌≢◌, ℕ, IfOk, IsTrue, MatchBool};
ghost use Rattle.hack_conflicts.specs.Sets.{Has};
ghost use Rattle.hack_conflicts.specs.Rules.{enables, IsPreorder, IsClosed};
ghost use Rattle.hack_closures.specs.Internal.{AreGreatest};

use crate::marks::{has, row_at};
use hack_conflicts::Rules as SearchRules;
use std::alloc::{AllocError, Global};

/// Whether position `x` enables position `y`.
fn enables(rules: &SearchRules, x: usize, y: usize) -> bool
    ensures { result ≡ enables rules.now x y }
{
    has(row_at(rules.enables.as_slice(), x), y)
}

/// Whether another member of the set enables the position.
fn has_above(rules: &SearchRules, set: &[bool], x: usize) -> bool
    ensures { MatchBool result
        ((y : ℕ) × (y ≢ x) × Has set.now y × IsTrue (enables rules.now y x))
        ((y : ℕ) → Has set.now y → IsTrue (enables rules.now y x) → y ≡ x) }
{
    for y in 0..set.len() {
        if y != x && has(set, y) && enables(rules, y, x) {
            return true;
        }
    }
    false
}

/// What is left of the set after a pass over its members, the greatest position first. The pass
/// takes a member out if another one that is left at that point enables it.
pub(crate) fn greatest(
    alloc: Global,
    rules: &SearchRules,
    set: &[bool],
) -> Result<Vec<bool>, AllocError>
    requires { IsPreorder rules.now }
    ensures { IfOk result (λ left. IsClosed rules.now set.now
        → AreGreatest rules.now set.now left.items) }
{
    let mut left = Vec::from_slice(alloc, set)?;
    let mut place = left.len();
    while place > 0 {
        place -= 1;
        if has_above(rules, left.as_slice(), place) {
            left[place] = false;
        }
    }
    Ok(left)
}
