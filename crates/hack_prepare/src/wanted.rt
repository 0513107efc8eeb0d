//! The edits that a call's arguments ask for, and the members of its workspace.

ghost use Rattle.std.specs.Prelude.{◌≡◌, ◌&&◌, ◌||◌, Contains, IfOk, Some, map};
ghost use Rattle.hack_load.specs.Contexts.{IsWholeContext};
ghost use Rattle.hack_load.specs.ContextView.{context_view};
ghost use Rattle.hack_prepare.specs.Prepared.{is_removed, is_alone, is_root};
ghost use Rattle.hack_prepare.specs.PreparedView.{member_manifest_at, member_manifest_view};
ghost use Rattle.hack_prepare.specs.PreparedView.{member_manifests_in, wanted_view};

use hack_load::context::Context;
use hack_metadata::metadata::PackageId;
use std::alloc::{AllocError, Global};

/// The edits that are asked for in the manifests of a workspace.
#[derive(Clone, Copy)]
pub(crate) struct Wanted<'a> {
    /// Whether development dependencies are to be removed.
    pub drops_dev: bool,
    /// Whether private members are to be removed.
    pub no_private: bool,
    /// Whether each edit is reported.
    pub verbose: bool,
    /// The folder of the workspace.
    pub folder: &'a str,
    /// The manifest in that folder.
    pub root: &'a str,
    /// The lockfile in that folder.
    pub lockfile: &'a str,
}

/// What is known of a workspace member's manifest.
#[derive(Clone, Copy)]
pub(crate) struct Member<'a> {
    /// The path of its manifest.
    pub path: &'a str,
    /// What was read there.
    pub text: &'a str,
    pub is_private: bool,
}

impl Wanted<'_> {
    /// Returns whether the member is removed from the workspace.
    pub fn goes(&self, member: &Member<'_>) -> bool
        ensures { result ≡ is_removed (wanted_view self.now) (member_manifest_view member.now) }
    {
        self.no_private && member.is_private
    }

    /// Returns whether the member's manifest is in the folder of the workspace.
    pub fn is_root(&self, member: &Member<'_>) -> bool
        ensures { result ≡ is_root (wanted_view self.now) (member_manifest_view member.now) }
    {
        member.path == self.root
    }

    /// Returns whether the member's manifest is edited by itself.
    pub fn is_alone(&self, member: &Member<'_>) -> bool
        ensures { result ≡ is_alone (wanted_view self.now) (member_manifest_view member.now) }
    {
        self.drops_dev && !self.is_left(member)
    }

    /// Returns whether the member is removed, or its manifest is edited with the workspace's.
    fn is_left(&self, member: &Member<'_>) -> bool
        ensures { let m = member_manifest_view member.now in
            result ≡ (self.now.no_private && (m.is_private || is_root (wanted_view self.now) m)) }
    {
        self.no_private && (member.is_private || self.is_root(member))
    }
}

/// A member of the workspace.
fn member_of<'a>(cx: &'a Context, id: &PackageId) -> Member<'a>
    requires member { Contains (context_view cx.now).metadata.workspace_members id.now.index }
    requires whole { IsWholeContext (context_view cx.now) }
    ensures { member_manifest_at (context_view cx.now) id.now.index
        ≡ Some (member_manifest_view result) }
{
    Member {
        path: cx.packages(*id).manifest_path.as_str(),
        text: cx.manifests(*id).text.as_str(),
        is_private: cx.is_private(*id),
    }
}

/// The members of the workspace, in their order.
pub(crate) fn members_of<'a>(alloc: Global, cx: &'a Context) -> Result<Vec<Member<'a>>, AllocError>
    ensures { IfOk result (λ members.
        map member_manifest_view members.items ≡ member_manifests_in (context_view cx.now)) }
{
    let mut members = Vec::new(alloc);
    for id in cx.workspace_members() {
        members.push(member_of(cx, id))?;
    }
    Ok(members)
}
