//! The edits of a manifest's text, whose errors name the path of the manifest.

ghost use Rattle.std.specs.Prelude.{IfErr, IfOk, string_bytes};
ghost use Rattle.hack_base.specs.Names.{names_behind};
ghost use Rattle.hack_edits.specs.DevDeps.{IsWithoutDev};
ghost use Rattle.hack_private_crates.specs.Members.{in_order};
ghost use Rattle.hack_private_crates.specs.PrivateCrates.{IsWithoutPrivate};
ghost use Rattle.hack_prepare.specs.Faults.{IsDevFault, IsPrivateFault};

use crate::fault::{PrepareFault, of_edit};
use hack_edits::manifest::remove_dev_deps;
use hack_private_crates::private_crates::remove_private_crates;
use std::alloc::Global;

/// Returns a text without its development dependencies.
pub(crate) fn without_dev(alloc: Global, path: &str, text: &str) -> Result<String, PrepareFault>
    ensures ok { IfOk result (λ new. IsWithoutDev text.now (string_bytes new)) }
    ensures err { IfErr result (IsDevFault path.now text.now) }
{
    match remove_dev_deps(alloc, text) {
        Ok(new) => Ok(new),
        Err(fault) => Err(of_edit(alloc, fault, path)),
    }
}

/// Returns a text without the private crates at these paths, for the workspace in a folder.
pub(crate) fn without_private(
    alloc: Global,
    path: &str,
    folder: &str,
    private: &[&str],
    text: &str,
) -> Result<String, PrepareFault>
    ensures ok { IfOk result (λ new.
        IsWithoutPrivate folder.now (in_order (names_behind private.now)) text.now
        (string_bytes new)) }
    ensures err { IfErr result
        (IsPrivateFault path.now folder.now (in_order (names_behind private.now)) text.now) }
{
    match remove_private_crates(alloc, text, folder, private) {
        Ok(new) => Ok(new),
        Err(fault) => Err(of_edit(alloc, fault, path)),
    }
}
