//! What covers a set: another one inside it that enables the same names.

ghost use Rattle.std.specs.Prelude.{◌≡◌, ◌<◌, [], length, slice_index, vec_len, IfOk};
ghost use Rattle.std.specs.Prelude.{if◌then◌else◌};
ghost use Rattle.std.specs.List.{slice_index_or, remove};
ghost use Rattle.hack_sets.specs.Sets.{IsSelection};
ghost use Rattle.hack_samples.specs.Sets.{rows_of};
ghost use Rattle.hack_features.specs.Rules.{Choice, IsFirstCover, IsWanted};
ghost use Rattle.hack_features.specs.PlacedView.{IsPlaced};
ghost use Rattle.hack_features.specs.InternalCover.{set_enables_test, covers_test};
ghost use Rattle.hack_routes.specs.declared.reach.Edges.TheVariants.{Enabling};

use crate::placed::Placed;
use crate::samples::one_leads;
use hack_routes::marks::row_at;
use std::alloc::{AllocError, Global};

/// Returns what is left of the set after a pass over its members, the greatest first. The pass
/// takes a member out if the others that are left at that point enable all its names; it never
/// takes the only one that is left.
pub(crate) fn first_cover(
    alloc: Global,
    enabled: &Placed,
    positions: &[usize],
) -> Result<Vec<usize>, AllocError>
    ensures { IfOk result (λ kept. (c : Choice)
        → IsPlaced Enabling c.map c.candidates c.at_least_one_of enabled.now
        → IsSelection (length c.candidates) positions.now → IsWanted c positions.now
        → IsFirstCover c positions.now kept.items) }
{
    let mut kept = Vec::from_slice(alloc, positions)?;
    let mut place = positions.len();
    while place > 0 {
        place -= 1;
        kept = without(alloc, enabled, kept, place)?;
    }
    Ok(kept)
}

/// Whether a name of a member of the set enables `y`.
fn set_enables(enabled: &Placed, positions: &[usize], y: usize) -> bool
    ensures { result ≡ set_enables_test (rows_of enabled.now.routes.marks.items)
        (rows_of enabled.now.candidates.items) positions.now y }
{
    let rows = enabled.candidates.as_slice();
    positions
        .iter()
        .any(|p| one_leads(&enabled.routes, row_at(rows, *p), y))
}

/// Whether the set is not empty and enables each of the names.
fn covers(enabled: &Placed, positions: &[usize], names: &[usize]) -> bool
    ensures { result ≡ covers_test (rows_of enabled.now.routes.marks.items)
        (rows_of enabled.now.candidates.items) positions.now names.now }
{
    if positions.is_empty() {
        return false;
    }
    for y in names {
        if !set_enables(enabled, positions, *y) {
            return false;
        }
    }
    true
}

/// Returns the set without the member at the place if other members are left and enable all names
/// of that member, else the set as it is.
fn without(
    alloc: Global,
    enabled: &Placed,
    kept: Vec<usize>,
    place: usize,
) -> Result<Vec<usize>, AllocError>
    requires { place < vec_len kept }
    ensures { IfOk result (λ next. next.items
        ≡ (if covers_test (rows_of enabled.now.routes.marks.items)
        (rows_of enabled.now.candidates.items) (remove kept.items place)
        (slice_index_or (rows_of enabled.now.candidates.items)
        (slice_index kept.items place) []) then remove kept.items place else kept.items)) }
{
    let mut rest = Vec::from_slice(alloc, kept.as_slice())?;
    let p = rest.remove(place);
    let names = row_at(enabled.candidates.as_slice(), p);
    if covers(enabled, rest.as_slice(), names) {
        Ok(rest)
    } else {
        Ok(kept)
    }
}
