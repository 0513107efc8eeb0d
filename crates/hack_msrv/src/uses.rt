//! Which versions of a plan its packages use.

ghost use Rattle.std.specs.Prelude.{◌≡◌, ◌-◌, ◌<◌, IfOk, IsTrue, length, map};
ghost use Rattle.std.specs.List.{list_any, range_with_len};
ghost use Rattle.hack_msrv.specs.Searches.{uses_of};
ghost use Rattle.hack_msrv.specs.Trials.{is_of as of_package};

use hack_plan::plan::Plan;
use std::alloc::{AllocError, Global};

/// Whether the place is one of the package.
pub(crate) fn is_of(plan: &Plan, member: usize, place: usize) -> bool
    ensures of { result ≡ of_package plan.now member place }
    ensures within { IsTrue result → place < length plan.now.entries }
{
    place < plan.len() && plan.entry(place).package == Some(member)
}

/// Whether the package has one of the places from the first up to the end.
fn has_place(plan: &Plan, member: usize, first: usize, end: usize) -> bool
    ensures { result
        ≡ list_any (of_package plan.now member) (range_with_len first (end - first)) }
{
    (first..end).any(|place| is_of(plan, member, place))
}

/// The versions that the package uses, as indices, in order.
fn uses(alloc: Global, plan: &Plan, member: usize) -> Result<Vec<usize>, AllocError>
    ensures { IfOk result (λ uses. uses.items ≡ uses_of plan.now member) }
{
    let versions = plan.versions();
    let mut uses = Vec::new(alloc);
    for index in 0..versions.len() {
        let version = &versions[index];
        if has_place(plan, member, version.first, version.end) {
            uses.push(index)?;
        }
    }
    Ok(uses)
}

/// The versions that each package uses.
pub(crate) fn all_uses(alloc: Global, plan: &Plan) -> Result<Vec<Vec<usize>>, AllocError>
    ensures { IfOk result (λ all. map (λ uses. uses.items) all.items
        ≡ map (uses_of plan.now) (range_with_len 0 (length plan.now.packages))) }
{
    let mut all = Vec::new(alloc);
    for member in 0..plan.packages().len() {
        all.push(uses(alloc, plan, member)?)?;
    }
    Ok(all)
}
