//! What a context gives a command: its arguments, its manifest path and the features of
//! `--features`. The answer has the command of each member with its notices, and the one without a
//! package with the number of its notices.

ghost use Rattle.std.specs.Prelude.{Contains};
ghost use Rattle.hack_load.specs.ContextView.{context_view};

use crate::tests::loading::{Show, within};
use crate::tests::shown::push_notices;
use hack_holds::Wrong;
use hack_load::context::Context;
use hack_load::metadata::PackageId;
use hack_load::process::{append_features_from_args, apply_context};
use std::alloc::{AllocError, Global};

/// Appends the command of a member and its notices to the text.
fn push_command(
    text: &mut String,
    alloc: Global,
    cx: &Context,
    id: PackageId,
) -> Result<(), AllocError>
    requires { Contains (context_view cx.now).metadata.workspace_members id.index }
{
    let mut command = cx.cargo(alloc)?;
    apply_context(&mut command, cx);
    let notices = append_features_from_args(alloc, &mut command, cx, Some(id))?;
    text.push_str(format!(in alloc; "{command}")?.as_str())?;
    push_notices(text, notices.as_slice())?;
    text.push_str("\n")
}

/// The command without a package, and the number of its notices.
fn command_of_none(alloc: Global, cx: &Context) -> Result<String, AllocError> {
    let mut command = cx.cargo(alloc)?;
    apply_context(&mut command, cx);
    let notices = append_features_from_args(alloc, &mut command, cx, None)?;
    let told = notices.len();
    format!(in alloc; "{command} {told}")
}

/// The command of each member, and the one without a package.
pub fn commands(alloc: Global, cx: &Context) -> Result<String, AllocError> {
    let mut text = String::new(alloc);
    for id in cx.workspace_members() {
        push_command(&mut text, alloc, cx, *id)?;
    }
    text.push_str(command_of_none(alloc, cx)?.as_str())?;
    Ok(text)
}

// Only the first member has the feature `a`.
#[test]
fn what_a_context_gives_a_command(rt: HostRuntime) -> Result<(), Wrong> {
    within(
        rt.alloc(),
        Show::Commands,
        r#"
            + rooted
            cargo locate-project = {"root":"/w/Cargo.toml"}
            /w/Cargo.toml = [package]\n[features]\na = []\n
            /w/q/Cargo.toml = [package]\n
        "#,
        "
            > check --features a,z --ignore-unknown-features -- x
            | `cargo check --features a -- x`
            | info: skipped applying unknown `z` feature to p
            | `cargo check -- x`
            | info: skipped applying unknown `a` feature to q
            | info: skipped applying unknown `z` feature to q
            | `cargo check --features a,z -- x` 0
            > check --features a,z --locked
            | `cargo check --locked --features a,z`
            | `cargo check --locked --features a,z`
            | `cargo check --locked --features a,z` 0
            > check
            | `cargo check`
            | `cargo check`
            | `cargo check` 0
        ",
    )
}
