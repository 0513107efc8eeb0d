//! The texts of notices about packages and their features.

ghost use Rattle.std.specs.Prelude.{◌≡◌, ◌++◌, IfOk, codes, string_bytes};
ghost use Rattle.std.specs.List.{join_with_byte};
ghost use Rattle.hack_base.specs.Names.{names_of};
ghost use Rattle.hack_planner.specs.Texts.{exclusion_text, lift_text};
ghost use Rattle.hack_planner.specs.Texts.{feature_text, dependency_text, table_text};
ghost use Rattle.hack_planner.specs.Texts.{group_text, private_text, name_verbose, workspace_text};
ghost use Rattle.hack_metadata.specs.RecordViews.{package_view};

use hack_base::paths::parent;
use hack_metadata::metadata::Package;
use std::alloc::{AllocError, Global};

/// The text about an excluded specification that matches no member.
pub(crate) fn exclusion_text(alloc: Global, spec: &str, root: &str) -> Result<String, AllocError>
    ensures { IfOk result (λ text. string_bytes text ≡ exclusion_text root.now spec.now) }
{
    format!(in alloc; "excluded package(s) `{spec}` not found in workspace `{root}`")
}

/// The text about a package name of `--allow-together` that no member has.
pub(crate) fn lift_text(alloc: Global, owner: &str, root: &str) -> Result<String, AllocError>
    ensures { IfOk result (λ text. string_bytes text ≡ lift_text root.now owner.now) }
{
    format!(in alloc; "package `{owner}` of --allow-together not found in workspace `{root}`")
}

/// The text about an excluded feature that the package doesn't have.
pub(crate) fn feature_text(alloc: Global, name: &str, pkg: &str) -> Result<String, AllocError>
    ensures { IfOk result (λ text. string_bytes text ≡ feature_text pkg.now name.now) }
{
    format!(in alloc; "specified feature `{name}` not found in package `{pkg}`")
}

/// The text about an optional dependency that is asked for and that the package doesn't have.
pub(crate) fn dependency_text(alloc: Global, name: &str, pkg: &str) -> Result<String, AllocError>
    ensures { IfOk result (λ text. string_bytes text ≡ dependency_text pkg.now name.now) }
{
    format!(in alloc; "specified optional dependency `{name}` not found in package `{pkg}`")
}

/// The text about a name of a package's own table that the package doesn't have.
pub(crate) fn table_text(alloc: Global, name: &str, pkg: &str) -> Result<String, AllocError>
    ensures { IfOk result (λ text. string_bytes text ≡ table_text pkg.now name.now) }
{
    format!(in alloc;
        "feature `{name}` of [package.metadata.cargo-hack] not found in package `{pkg}`"
    )
}

/// The text about a name of the workspace's table that no member has.
pub(crate) fn workspace_text(alloc: Global, name: &str) -> Result<String, AllocError>
    ensures { IfOk result (λ text. string_bytes text ≡ workspace_text name.now) }
{
    format!(in alloc; "feature `{name}` of [workspace.metadata.cargo-hack] not found in any member")
}

/// The names, joined by commas.
fn join_names(alloc: Global, names: &[String]) -> Result<String, AllocError>
    ensures { IfOk result (λ text. string_bytes text ≡ join_with_byte 44 (names_of names.now)) }
{
    let mut text = String::new(alloc);
    for (place, part) in names.iter().enumerate() {
        if place > 0 {
            text.push_str(",")?;
        }
        text.push_str(part.as_str())?;
    }
    Ok(text)
}

/// The text about a group that isn't applied to the package.
pub(crate) fn group_text(alloc: Global, names: &[String], pkg: &str) -> Result<String, AllocError>
    ensures { IfOk result (λ text. string_bytes text ≡ group_text pkg.now (names_of names.now)) }
{
    let joined = join_names(alloc, names)?;
    format!(in alloc; "skipped applying group `{joined}` to {pkg}")
}

/// A package's name with the folder of its manifest.
fn verbose_text(alloc: Global, name: &str, folder: &str) -> Result<String, AllocError>
    ensures { IfOk result (λ text. string_bytes text
        ≡ name.now ++ (codes " (" ++ (folder.now ++ codes ")"))) }
{
    format!(in alloc; "{name} ({folder})")
}

/// A package's name, under `--verbose` with the folder of its manifest.
fn name_verbose(alloc: Global, pkg: &Package, verbose: bool) -> Result<String, AllocError>
    ensures { IfOk result (λ text. string_bytes text ≡ name_verbose verbose (package_view
        pkg.now)) }
{
    if verbose {
        verbose_text(alloc, pkg.name.as_str(), parent(pkg.manifest_path.as_str()))
    } else {
        pkg.name.clone()
    }
}

/// The text about a private package that is skipped.
pub(crate) fn private_text(
    alloc: Global,
    pkg: &Package,
    verbose: bool,
) -> Result<String, AllocError>
    ensures { IfOk result (λ text. string_bytes text ≡ private_text verbose (package_view
        pkg.now)) }
{
    let name = name_verbose(alloc, pkg, verbose)?;
    format!(in alloc; "skipped running on private package `{name}`")
}
