//! The members of a workspace, and which specifications match them.

ghost use Rattle.std.specs.Prelude.{◌≡◌, ◌↔◌, IsTrue, map};
ghost use Rattle.hack_base.specs.Names.{names_of};
ghost use Rattle.hack_pkgids.specs.PackageSpecs.{Matches};
ghost use Rattle.hack_metadata.specs.SpecViews.{identity_of};
ghost use Rattle.hack_planner.specs.Members.{IsMatched, MatchesSome, is_called};
ghost use Rattle.hack_planner.specs.MembersView.{member_view};

use hack_metadata::cargo::match_pkg_spec;
use hack_metadata::metadata::{Package, PackageId};

/// A member of a workspace, with what decides whether a call runs on it.
#[derive(Clone, Copy)]
pub struct Member<'a> {
    pub id: PackageId,
    /// What the metadata say of it.
    pub pkg: &'a Package,
    /// Whether publishing it is forbidden.
    pub is_private: bool,
}

/// Whether the specification matches the package. If comparing them gives an error, it doesn't
/// match.
pub(crate) fn fits(pkg: &Package, spec: &str) -> bool
    ensures { IsTrue result ↔ Matches (identity_of pkg.now) spec.now }
{
    match match_pkg_spec(pkg, spec) {
        Ok(fits) => fits,
        Err(_) => false,
    }
}

/// Whether one of the specifications matches the member.
pub(crate) fn is_matched(member: &Member<'_>, specs: &[String]) -> bool
    ensures { IsTrue result ↔ IsMatched (names_of specs.now) (member_view member.now) }
{
    for spec in specs {
        if fits(member.pkg, spec.as_str()) {
            return true;
        }
    }
    false
}

/// Whether the specification matches one of the members.
pub(crate) fn matches_some(members: &[Member<'_>], spec: &str) -> bool
    ensures { IsTrue result ↔ MatchesSome (map member_view members.now) spec.now }
{
    for member in members {
        if fits(member.pkg, spec) {
            return true;
        }
    }
    false
}

/// Whether one of the members has the name.
#[tactic(auto, using(hack_base::proofs::Chains::mapped))]
pub(crate) fn is_called(members: &[Member<'_>], name: &str) -> bool
    ensures { result ≡ is_called (map member_view members.now) name.now }
{
    members
        .iter()
        .any(|member| member.pkg.name.as_str() == name)
}
