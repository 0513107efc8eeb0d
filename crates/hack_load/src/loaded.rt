//! What was loaded for a call, before its context is made.

ghost use Rattle.std.specs.Prelude.{◌≡◌, length};

use crate::located::Located;
use hack_manifest::manifest::Manifest;
use hack_metadata::metadata::Metadata;

/// What was loaded for a call.
#[derive(Drop)]
pub struct Loaded {
    /// The program that was run as cargo.
    pub cargo: String,
    /// The folder that the call was made in, empty where it isn't known.
    pub current_dir: String,
    pub metadata: Metadata,
    /// One for each member of the workspace, in their order.
    pub manifests: Vec<Manifest>,
    pub located: Located,
    ghost each: { length manifests.items ≡ length metadata.workspace_members.items },
}
