//! What all commands of a call have in common, from what was loaded.

ghost use Rattle.std.specs.Prelude.{◌≡◌, IfOk, option_and_then, option_map};
ghost use Rattle.hack_load.specs.Contexts.{package_at};
ghost use Rattle.hack_base.specs.Names.{optional_text};
ghost use Rattle.hack_metadata.specs.RecordViews.{package_view as package_record};
ghost use Rattle.hack_load.specs.ContextView.{context_view};
ghost use Rattle.hack_plan.specs.View.{call_view};
ghost use Rattle.hack_planner.specs.Calls.{given_path, call_of};

use hack_base::copies::copies;
use hack_base::paths::under;
use hack_load::context::Context;
use hack_metadata::metadata::Package;
use hack_plan::parts::CommandParts;
use std::alloc::{AllocError, Global};

/// The path of a package's manifest as a command is given it, relative to the folder if it lies in
/// it; none where commands get none.
pub fn given_path(
    alloc: Global,
    hidden: bool,
    dir: &str,
    member: Option<&Package>,
) -> Result<Option<String>, AllocError>
    ensures { IfOk result (λ path. optional_text path
        ≡ given_path hidden dir.now (option_map (λ p. package_record p.now) member.entry)) }
{
    if hidden {
        return Ok(None);
    }
    match member {
        Some(member) => {
            let path = under(member.manifest_path.as_str(), dir);
            Ok(Some(String::from_str(alloc, path)?))
        }
        None => Ok(None),
    }
}

/// The current package, as cargo locates it.
fn current(cx: &Context) -> Option<&Package>
    ensures { option_map (λ p. package_record p.now) result
        ≡ option_and_then (package_at (context_view cx.now))
        (context_view cx.now).current_package }
{
    match cx.current_package() {
        Some(id) => cx.metadata().find(id),
        None => None,
    }
}

/// What all commands of the call have in common. `rustup` is the program to run as rustup.
pub fn call_words(alloc: Global, cx: &Context, rustup: &str) -> Result<CommandParts, AllocError>
    ensures { IfOk result (λ words. call_view words ≡ call_of (context_view cx.now) rustup.now) }
{
    let args = cx.args();
    let cargo = cx.cargo(alloc)?;
    let manifest = given_path(alloc, args.no_manifest_path, cx.current_dir(), current(cx))?;
    Ok(CommandParts {
        cargo: String::from_str(alloc, cargo.program())?,
        rustup: String::from_str(alloc, rustup)?,
        passed: copies(alloc, args.leading_args.as_slice())?,
        trailing: copies(alloc, args.trailing_args.as_slice())?,
        features: copies(alloc, args.features.as_slice())?,
        targets: copies(alloc, args.target.as_slice())?,
        cargo_minor: cx.cargo_minor(),
        locked: args.locked,
        clean_per_run: args.clean_per_run,
        clean_per_version: args.clean_per_version,
        grows: false,
        current_manifest: manifest,
        dir: String::from_str(alloc, cx.current_dir())?,
    })
}
