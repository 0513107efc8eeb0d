//! Commands, and what a context gives them: the call's arguments for cargo, and its features.

ghost use Rattle.std.specs.Prelude.{◌≡◌, ◌++◌, ◌∷◌, [], Contains, IfOk, OnOk, OnErr, IfSome, Some};
ghost use Rattle.std.specs.Prelude.{cond, filter, map, not, option_map, string_bytes};
ghost use Rattle.hack_metadata.specs.RecordViews.{place_at};
ghost use Rattle.hack_process.specs.CommandTexts.{with_names};
ghost use Rattle.hack_process.specs.Commands.{command_of};
ghost use Rattle.hack_base.specs.Notes.{note_of, AddsNotes};
ghost use Rattle.hack_load.specs.ContextView.{context_view};
ghost use Rattle.hack_load.specs.GivenFeatures.{given_features, knows, left_out, left_out_for};
ghost use Rattle.hack_load.specs.GivenFeatures.{name_or_empty_at, passed_for};

use crate::context::Context;
use hack_base::notice::{Notice, NoticeKind};
use hack_metadata::metadata::PackageId;
pub use hack_process::process::{
    Called, Caller, Child, End, Failure, FakeCaller, Line, Made, ProcessBuilder, ProcessFault,
};
use std::alloc::{AllocError, Global};

/// Gives a command the call's arguments for cargo: those before the call's `--`, and those after.
/// No program here calls it: it is for users of the library.
pub fn apply_context<'a>(command: &mut ProcessBuilder<'a>, cx: &'a Context)
    ensures { command_of command.new ≡ record (command_of command.old) {
      passed = map string_bytes (context_view cx.now).args.leading_args.items;
      trailing = map string_bytes (context_view cx.now).args.trailing_args.items;
    } }
{
    let args = cx.args();
    command.pass_words(&args.leading_args, &args.trailing_args);
}

/// Appends the features of the call to those of a command, which is for the package `id`, or for
/// all. Under `--ignore-unknown-features` those that the package doesn't have are left out, and a
/// notice is returned for each. No program here calls it: it is for users of the library.
pub fn append_features_from_args(
    alloc: Global,
    command: &mut ProcessBuilder<'_>,
    cx: &Context,
    id: Option<PackageId>,
) -> Result<Vec<Notice>, AllocError>
    requires { IfSome id (λ id.
        Contains (context_view cx.now).metadata.workspace_members id.index) }
    ensures ok { OnOk result (command_of command.new ≡ record (command_of command.old) {
      features = with_names (command_of command.old).features
          (passed_for (context_view cx.now) (option_map place_at id));
    }) }
    ensures notices { IfOk result (λ notices. map note_of notices.items
        ≡ left_out_for (context_view cx.now) (option_map place_at id)) }
    ensures err { OnErr result (command_of command.new ≡ command_of command.old) }
{
    match id {
        Some(id) => append_features_for(alloc, command, cx, id),
        None => {
            command.append_features(cx.args().features.as_slice())?;
            Ok(Vec::new(alloc))
        }
    }
}

/// Appends the features of the call that the commands of a package get.
fn append_features_for(
    alloc: Global,
    command: &mut ProcessBuilder<'_>,
    cx: &Context,
    id: PackageId,
) -> Result<Vec<Notice>, AllocError>
    requires { Contains (context_view cx.now).metadata.workspace_members id.index }
    ensures ok { OnOk result (command_of command.new ≡ record (command_of command.old) {
      features = with_names (command_of command.old).features
          (passed_for (context_view cx.now) (Some id.index));
    }) }
    ensures notices { IfOk result (λ notices. map note_of notices.items
        ≡ left_out_for (context_view cx.now) (Some id.index)) }
    ensures err { OnErr result (command_of command.new ≡ command_of command.old) }
{
    let (names, notices) = features_for(alloc, cx, id)?;
    command.append_features(&names)?;
    Ok(notices)
}

/// Returns the features of the call that the commands of a package get, and a notice for each one
/// that is left out under `--ignore-unknown-features`, since the package doesn't have it.
pub fn features_for<'a>(
    alloc: Global,
    cx: &'a Context,
    id: PackageId,
) -> Result<(Vec<&'a str>, Vec<Notice>), AllocError>
    requires { Contains (context_view cx.now).metadata.workspace_members id.index }
    ensures names { IfOk result (λ answer. map (λ word. word.now) answer.0.items
        ≡ passed_for (context_view cx.now) (Some id.index)) }
    ensures notices { IfOk result (λ answer. map note_of answer.1.items
        ≡ left_out_for (context_view cx.now) (Some id.index)) }
{
    if cx.args().ignore_unknown_features {
        return known_features(alloc, cx, id);
    }
    Ok((all_features(alloc, cx)?, Vec::new(alloc)))
}

/// Returns the features of the call.
fn all_features<'a>(alloc: Global, cx: &'a Context) -> Result<Vec<&'a str>, AllocError>
    ensures { IfOk result (λ names. map (λ word. word.now) names.items
        ≡ given_features (context_view cx.now)) }
{
    let mut names = Vec::new(alloc);
    for name in &cx.args().features {
        names.push(name.as_str())?;
    }
    Ok(names)
}

/// Returns the features of the call that a package has, and a notice for each of the others.
fn known_features<'a>(
    alloc: Global,
    cx: &'a Context,
    id: PackageId,
) -> Result<(Vec<&'a str>, Vec<Notice>), AllocError>
    requires { Contains (context_view cx.now).metadata.workspace_members id.index }
    ensures names { IfOk result (λ answer. map (λ word. word.now) answer.0.items
        ≡ filter (knows (context_view cx.now) id.index) (given_features (context_view cx.now))) }
    ensures notices { IfOk result (λ answer. map note_of answer.1.items
        ≡ map (left_out (name_or_empty_at (context_view cx.now) id.index))
        (filter (λ f. not (knows (context_view cx.now) id.index f))
        (given_features (context_view cx.now)))) }
{
    let mut names = Vec::new(alloc);
    let mut notices = Vec::new(alloc);
    for name in &cx.args().features {
        sort(alloc, &mut names, &mut notices, cx, id, name.as_str())?;
    }
    Ok((names, notices))
}

/// Adds a feature to those that the package has, or else a notice on it.
fn sort<'a>(
    alloc: Global,
    names: &mut Vec<&'a str>,
    notices: &mut Vec<Notice>,
    cx: &Context,
    id: PackageId,
    name: &'a str,
) -> Result<(), AllocError>
    requires { Contains (context_view cx.now).metadata.workspace_members id.index }
    ensures known { OnOk result (map (λ word. word.now) names.new.items
        ≡ map (λ word. word.now) names.old.items
        ++ cond (knows (context_view cx.now) id.index name.now) (name.now ∷ []) []) }
    ensures unknown { OnOk result (AddsNotes notices.old notices.new
        (cond (knows (context_view cx.now) id.index name.now) []
        (left_out (name_or_empty_at (context_view cx.now) id.index) name.now ∷ []))) }
{
    if knows(cx, id, name) {
        names.push(name)?;
        return Ok(());
    }
    notices.push(left_out(alloc, cx, id, name)?)?;
    Ok(())
}

/// Returns whether a package has a feature of this name.
fn knows(cx: &Context, id: PackageId, name: &str) -> bool
    requires { Contains (context_view cx.now).metadata.workspace_members id.index }
    ensures { result ≡ knows (context_view cx.now) id.index name.now }
{
    cx.pkg_features(id).contains(name)
}

/// Returns the notice that a package doesn't have the feature.
fn left_out(alloc: Global, cx: &Context, id: PackageId, name: &str) -> Result<Notice, AllocError>
    requires { Contains (context_view cx.now).metadata.workspace_members id.index }
    ensures { IfOk result (λ notice. note_of notice
        ≡ left_out (name_or_empty_at (context_view cx.now) id.index) name.now) }
{
    let of = name_of(cx, id);
    Ok(Notice {
        kind: NoticeKind::Info,
        text: format!(in alloc; "skipped applying unknown `{name}` feature to {of}")?,
    })
}

fn name_of(cx: &Context, id: PackageId) -> &str
    ensures { result.now ≡ name_or_empty_at (context_view cx.now) id.index }
{
    match cx.metadata().find(id) {
        Some(package) => package.name.as_str(),
        None => "",
    }
}
