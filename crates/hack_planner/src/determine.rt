//! Which packages a call runs on, after its context was loaded, and which runs each of them has.

ghost use Rattle.std.specs.Prelude.{◌≡◌, ◌<◌, ◌⊎◌, Contains, IfOk, IfErr, None, Some, length, map};
ghost use Rattle.std.specs.Prelude.{option_copied, option_map};
ghost use Rattle.hack_load.specs.Contexts.{IsWholeContext, package_at, features_at};
ghost use Rattle.hack_load.specs.ContextView.{context_view};
ghost use Rattle.hack_load.specs.declared.features.Features.{Features as Loaded};
ghost use Rattle.hack_metadata.specs.Records.{PackageRecord};
ghost use Rattle.hack_base.specs.Notes.{note_of};
ghost use Rattle.hack_planner.specs.MembersView.{member_view};
ghost use Rattle.hack_planner.specs.Calls.{package_notes, rules_at};
ghost use Rattle.hack_planner.specs.KindsView.{AreRunsBy, IsRunsFault};
ghost use Rattle.hack_samples.specs.Sets.{rows_of};
ghost use Rattle.hack_planner.specs.ContextMembers.{member_at, members_in};
ghost use Rattle.hack_planner.specs.ContextMembers.{current_name as current_called};
ghost use Rattle.hack_planner.specs.ContextMembers.{AreChosen, AreChoiceNotes, IsChoiceFault};

use crate::fault::{PackagesFault, RunsFault};
use crate::kind::{PackageRuns, runs_by};
use crate::member::Member;
use crate::package_rules::PackageRules;
use crate::packages::{PackageList, choose_packages};
use crate::tables::notes_of;
use hack_base::notice::Notice;
use hack_load::context::Context;
use hack_metadata::metadata::PackageId;
use std::alloc::{AllocError, Global};

/// The member of the workspace that has this id.
fn member_of<'a>(context: &'a Context, id: &PackageId) -> Member<'a>
    requires member { Contains (context_view context.now).metadata.workspace_members id.now.index }
    requires whole { IsWholeContext (context_view context.now) }
    ensures { member_at (context_view context.now) id.now.index ≡ Some (member_view result) }
{
    Member {
        id: *id,
        pkg: context.packages(*id),
        is_private: context.is_private(*id),
    }
}

/// The members of the workspace, in their order.
fn members_of<'a>(alloc: Global, context: &'a Context) -> Result<Vec<Member<'a>>, AllocError>
    ensures { IfOk result (λ members.
        map member_view members.items ≡ members_in (context_view context.now)) }
{
    let mut members = Vec::new(alloc);
    for id in context.workspace_members() {
        members.push(member_of(context, id))?;
    }
    Ok(members)
}

/// The name of a package.
fn name_at(context: &Context, id: PackageId) -> &str
    requires { id.index < length (context_view context.now).metadata.packages }
    ensures { option_map (λ p. p.name) (package_at (context_view context.now) id.index)
        ≡ Some result.now }
{
    context.packages(id).name.as_str()
}

/// The name of the current package, if there is one.
fn current_name(context: &Context) -> Option<&str>
    ensures { option_copied result ≡ current_called (context_view context.now) }
{
    match context.current_package() {
        Some(id) => Some(name_at(context, id)),
        None => None,
    }
}

/// Returns the packages that a call runs on, and the notices about them. Under `--workspace` they
/// are all packages of the workspace; else those that the call names; if it names none, the current
/// one; if there is none, all. Excluded packages are left out, and under `--ignore-private` private
/// ones too.
pub fn determine_package_list(
    alloc: Global,
    context: &Context,
) -> Result<(PackageList, Vec<Notice>), PackagesFault>
    ensures ok { IfOk result (λ answer. AreChosen (context_view context.now)
        (map (λ id. id.index) answer.0.ids.items)) }
    ensures notes { IfOk result (λ answer. AreChoiceNotes (context_view context.now)
        answer.0.is_single (map note_of answer.1.items)) }
    ensures never { IfOk result (λ _. (e : PackagesFault)
        → ¬ IsChoiceFault (context_view context.now) e) }
    ensures err { IfErr result (λ e. (e ≡ PackagesFault.Memory)
        ⊎ IsChoiceFault (context_view context.now) e) }
{
    let members = members_of(alloc, context)?;
    let current = current_name(context);
    let root = context.workspace_root();
    choose_packages(alloc, context.args(), members.as_slice(), current, root)
}

/// Returns the runs of a member of the workspace, and the notices about its features. A table of rules
/// with a fault says nothing here; `plan_of` refuses it. `single` says
/// whether it is the only package that is left after exclusions.
pub fn determine_kind(
    alloc: Global,
    context: &Context,
    id: PackageId,
    single: bool,
) -> Result<(PackageRuns, Vec<Notice>), RunsFault>
    requires { Contains (context_view context.now).metadata.workspace_members id.index }
    ensures id { IfOk result (λ answer. answer.0.id ≡ id) }
    ensures made { (p : PackageRecord) (features : Loaded)
        → package_at (context_view context.now) id.index ≡ Some p
        → features_at (context_view context.now) id.index ≡ Some features
        → IfOk result (λ answer.
        AreRunsBy (rules_at (context_view context.now) p features) p features answer.0.kind
        (rows_of answer.0.settings.items)) }
    ensures notices { (p : PackageRecord) (features : Loaded)
        → package_at (context_view context.now) id.index ≡ Some p
        → features_at (context_view context.now) id.index ≡ Some features
        → IfOk result (λ answer. map note_of answer.1.items
        ≡ package_notes (context_view context.now).args single
        (rules_at (context_view context.now) p features) p features) }

    // The only error besides out of memory is a sample that needs too many questions.
    ensures err { (p : PackageRecord) (features : Loaded)
        → package_at (context_view context.now) id.index ≡ Some p
        → features_at (context_view context.now) id.index ≡ Some features
        → IfErr result (λ e. (e ≡ RunsFault.Memory)
        ⊎ IsRunsFault (rules_at (context_view context.now) p features) p features e) }
{
    let pkg = context.packages(id);
    let features = context.pkg_features(id);
    let asked = PackageRules::of(alloc, context, pkg, features)?;
    let notices = notes_of(alloc, context.args(), &asked, pkg, features, single)?;
    match runs_by(alloc, &asked, id, pkg, features) {
        Ok(made) => Ok((made, notices)),
        Err(fault) => Err(fault),
    }
}
