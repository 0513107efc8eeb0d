//! Package ID specifications, by which cargo's options name packages.

ghost use Rattle.std.specs.Prelude.{◌≡◌, ◌↔◌, true, Ok, Err};
ghost use Rattle.hack_metadata.specs.SpecViews.{identity_of};
ghost use Rattle.hack_pkgids.specs.PackageSpecs.{Matches, HasBadId, HasBadVersion};

use crate::metadata::package::Package;
pub use hack_pkgids::pkgids::SpecFault;
use hack_pkgids::pkgids::{PackageIdentity, matches};

/// Returns whether the specification matches the package: it is the package's name, the name and a
/// version, or a URL that agrees with the package's id.
pub fn match_pkg_spec(pkg: &Package, spec: &str) -> Result<bool, SpecFault>
    ensures matches { (result ≡ Ok true) ↔ Matches (identity_of pkg.now) spec.now }
    ensures bad_id { (result ≡ Err SpecFault.BadId) ↔ HasBadId (identity_of pkg.now) spec.now }
    ensures bad_version { (result ≡ Err SpecFault.BadVersion)
        ↔ HasBadVersion (identity_of pkg.now) spec.now }
{
    let identity = PackageIdentity {
        name: pkg.name.as_str(),
        version: pkg.version.as_str(),
        id: pkg.id.as_str(),
    };
    matches(identity, spec)
}
