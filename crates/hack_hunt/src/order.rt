//! The order in which sets are reported: that in which a powerset lists them.

ghost use Rattle.std.specs.Prelude.{◌≡◌, All, OnOk};
ghost use Rattle.std.specs.Cmp.Lexicographic.{slice_cmp};
ghost use Rattle.std.specs.List.Sorted.{IsPermutation};
ghost use Rattle.std.specs.Ordering.{nat_cmp};
ghost use Rattle.hack_hunt.specs.Hunts.{AreInOrder};
ghost use Rattle.hack_hunt.specs.Internal.{Rises, compared, key_of, positions_of, rank_of};

use hack_closures::Build;
use std::alloc::AllocError;
use std::cmp::Ordering;

/// Puts what was built in the order of a powerset.
pub(crate) fn sort_builds(builds: &mut Vec<Build>) -> Result<(), AllocError>
    ensures permutation { IsPermutation builds.old.items builds.new.items }
    ensures order { OnOk result (All Rises builds.old.items → AreInOrder builds.new.items) }
{
    builds.sort_by(|first, second| compare(first, second))
}

/// The run without features comes first, and that with all features last.
fn compare(first: &Build, second: &Build) -> Ordering
    ensures { result ≡ slice_cmp nat_cmp (key_of first.now) (key_of second.now) }
{
    match rank(first).cmp(&rank(second)) {
        Ordering::Equal => compare_sets(positions(first), positions(second)),
        other => other,
    }
}

fn rank(build: &Build) -> usize
    ensures { result ≡ rank_of build.now }
{
    match build {
        Build::NoFeatures => 0,
        Build::Set(_) => 1,
        Build::AllFeatures => 2,
    }
}

fn positions(build: &Build) -> &[usize]
    ensures { result.now ≡ positions_of build.now }
{
    match build {
        Build::Set(positions) => positions.as_slice(),
        Build::NoFeatures | Build::AllFeatures => &[],
    }
}

/// Which of two lists of increasing positions comes first: the greatest position in which they differ
/// decides.
fn compare_sets(first: &[usize], second: &[usize]) -> Ordering
    ensures { result ≡ compared first.now second.now }
{
    first.iter().rev().cmp(second.iter().rev())
}
