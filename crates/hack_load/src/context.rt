//! All that is loaded for one call: what its arguments ask for, what cargo reports of the
//! workspace, the manifest and the features of each member, and the current package.

ghost use Rattle.std.specs.Prelude.{◌≡◌, ◌<◌, ◌⊎◌, ◌↔◌, ℕ, true, Some, IfOk, OnOk, false, not, map};
ghost use Rattle.std.specs.Prelude.{[], Contains, IfErr, IsTrue, length, option_copied, option_map};
ghost use Rattle.std.specs.Option.{option_map_or};
ghost use Rattle.hack_base.specs.Names.{optional_text};
ghost use Rattle.hack_process.specs.Commands.{command_of, plain_command};
ghost use Rattle.hack_metadata.specs.RecordViews.{package_view, place_at};
ghost use Rattle.hack_metadata.specs.MetadataView.{metadata_view};
ghost use Rattle.hack_load.specs.Contexts.{IsWholeContext, is_member_or_none, place_among};
ghost use Rattle.hack_load.specs.Contexts.{package_at, manifest_at, features_at, is_private_at};
ghost use Rattle.hack_load.specs.Contexts.{rust_version_at, verbose_name, manifest_rust_version};
ghost use Rattle.hack_load.specs.ContextOf.{AreFeatures, IsContextCause, IsContextFrom, IsTooOld};
ghost use Rattle.hack_load.specs.ContextOf.{IsContextOf, IsLoadCause, IsNodeFault, warnings_of};
ghost use Rattle.hack_load.specs.Internal.{IsOfNode};
ghost use Rattle.hack_load.specs.Candidates.{MissesNode};
ghost use Rattle.hack_load.specs.CargoQuestions.{told_version};
ghost use Rattle.hack_load.specs.Names.{name_text};
ghost use Rattle.hack_base.specs.Notes.{note_of};

pub use crate::answers::{Answers, Loaded};
use crate::cargo_version::minor_of;
pub use crate::fault::ContextFault;
use crate::features::Features;
pub use crate::located::{Located, current_package};
pub use crate::name::VerboseName;
use hack_base::notice::{Notice, NoticeKind};
use hack_base::paths::parent;
use hack_manifest::manifest::Manifest;
use hack_metadata::metadata::{Metadata, MetadataFault, Package, PackageId};
use hack_process::process::ProcessBuilder;
use hack_words::cli::Args;
use std::alloc::{AllocError, Global};

/// All that is loaded for one call. An id is of use only with the context that it comes from.
#[derive(Drop)]
pub struct Context {
    args: Args,
    metadata: Metadata,
    /// One for each member of the workspace, in their order, as `features`.
    manifests: Vec<Manifest>,
    features: Vec<Features>,
    cargo: String,
    cargo_minor: u32,
    current_dir: String,
    current_package: Option<PackageId>,
    ghost each_manifest: { length manifests.items ≡ length metadata.workspace_members.items },
    ghost each_features: { length features.items ≡ length metadata.workspace_members.items },
    ghost current: { is_member_or_none (map place_at metadata.workspace_members.items)
        (option_map place_at current_package) ≡ true },
}

impl Context {
    ghost use Rattle.hack_load.specs.ContextView.{context_view};

    /// Makes the context of what was loaded. The notices say where cargo's version isn't known.
    pub fn new(
        alloc: Global,
        args: Args,
        answers: Answers,
    ) -> Result<(Context, Vec<Notice>), ContextFault>
        ensures ok { IfOk result (λ r. IsContextFrom args answers (context_view r.0)) }
        ensures notices { IfOk result (λ r.
            map note_of r.1.items ≡ warnings_of (told_version answers.cargo_version)) }
        ensures never { IfOk result (λ _. (e : ContextFault) → ¬ IsContextCause args answers e) }
        ensures err { IfErr result (λ e. (e ≡ ContextFault.Memory)
            ⊎ IsContextCause args answers e) }
    {
        let Answers {
            cargo_version,
            loaded,
        } = answers;
        let loaded = match loaded {
            Ok(loaded) => loaded,
            Err(fault) => return Err(fault),
        };
        let minor = minor_of(&cargo_version);
        let notices = warnings(alloc, cargo_version)?;
        match Context::of(alloc, args, minor, loaded) {
            Ok(context) => Ok((context, notices)),
            Err(fault) => Err(fault),
        }
    }

    /// Makes the context of what was loaded. `minor` is the minor version of cargo itself.
    fn of(alloc: Global, args: Args, minor: u32, loaded: Loaded) -> Result<Context, ContextFault>
        ensures ok { IfOk result (λ cx. IsContextOf args minor loaded (context_view cx)) }
        ensures never { IfOk result (λ _. (e : ContextFault) → ¬ IsLoadCause args loaded e) }
        ensures err { IfErr result (λ e. (e ≡ ContextFault.Memory) ⊎ IsLoadCause args loaded e) }
    {
        let asked = args.include_deps_features;
        if is_too_old(asked, loaded.metadata.cargo_version) {
            return Err(ContextFault::OldCargo);
        }
        let features = match features_of(alloc, &loaded.metadata, &loaded.manifests, asked) {
            Ok(features) => features,
            Err(fault) => return Err(of_node(fault)),
        };
        let root = match loaded.located.root(alloc) {
            Ok(root) => root,
            Err(fault) => return Err(fault),
        };
        let current_package = current_package(&loaded.metadata, root.as_str());
        let Loaded {
            cargo,
            current_dir,
            metadata,
            manifests,
            located: _,
        } = loaded;
        Ok(Context {
            args,
            metadata,
            manifests,
            features,
            cargo,
            cargo_minor: minor,
            current_dir,
            current_package,
        })
    }

    /// Returns what the arguments of the call ask for.
    pub fn args(&self) -> &Args
        ensures { result.now ≡ (context_view self.now).args }
    {
        &self.args
    }

    /// Returns what cargo reports of the workspace.
    pub fn metadata(&self) -> &Metadata
        ensures { metadata_view result.now ≡ (context_view self.now).metadata }
    {
        &self.metadata
    }

    /// The members of the workspace, each once. Each has a package, a manifest and features.
    pub fn workspace_members(&self) -> &[PackageId]
        ensures members { map place_at result.now
            ≡ (context_view self.now).metadata.workspace_members }
        ensures whole { IsWholeContext (context_view self.now) }
    {
        self.metadata.workspace_members.as_slice()
    }

    /// The absolute path of the folder of the workspace.
    pub fn workspace_root(&self) -> &str
        ensures { result.now ≡ (context_view self.now).metadata.workspace_root }
    {
        self.metadata.workspace_root.as_str()
    }

    /// Returns the current package, the member at the manifest that `cargo locate-project` reports,
    /// if there is one.
    pub fn current_package(&self) -> Option<PackageId>
        ensures { option_map place_at result ≡ (context_view self.now).current_package }
    {
        self.current_package
    }

    /// Returns the program to run as cargo, as a command without arguments.
    pub fn cargo<'a>(&self, alloc: Global) -> Result<ProcessBuilder<'a>, AllocError>
        ensures { IfOk result (λ builder.
            command_of builder ≡ plain_command (context_view self.now).cargo [] []) }
    {
        ProcessBuilder::new(alloc, self.cargo.as_str())
    }

    /// Returns the minor version of that cargo itself, 0 where it isn't known. The cargo that
    /// reported the metadata may be newer.
    pub fn cargo_minor(&self) -> u32
        ensures { result ≡ (context_view self.now).cargo_minor }
    {
        self.cargo_minor
    }

    /// The folder that the call was made in, empty where it isn't known.
    pub fn current_dir(&self) -> &str
        ensures { result.now ≡ (context_view self.now).current_dir }
    {
        self.current_dir.as_str()
    }

    /// A package of the metadata.
    pub fn packages(&self, id: PackageId) -> &Package
        requires { id.index < length (context_view self.now).metadata.packages }
        ensures { package_at (context_view self.now) id.index ≡ Some (package_view result.now) }
    {
        self.metadata.get(id)
    }

    /// The manifest of a member.
    pub fn manifests(&self, id: PackageId) -> &Manifest
        requires { Contains (context_view self.now).metadata.workspace_members id.index }
        ensures { manifest_at (context_view self.now) id.index ≡ Some result.now }
    {
        &self.manifests[place_of(&self.metadata.workspace_members, id)]
    }

    /// The features of a member.
    pub fn pkg_features(&self, id: PackageId) -> &Features
        requires { Contains (context_view self.now).metadata.workspace_members id.index }
        ensures { features_at (context_view self.now) id.index ≡ Some result.now }
    {
        &self.features[place_of(&self.metadata.workspace_members, id)]
    }

    /// Returns whether a member may not be published. Cargo reports it from 1.39 on; for an older
    /// one the manifest says it.
    pub fn is_private(&self, id: PackageId) -> bool
        requires { Contains (context_view self.now).metadata.workspace_members id.index }
        ensures { result ≡ is_private_at (context_view self.now) id.index }
    {
        if self.metadata.cargo_version < 39 {
            return denies(self.manifests(id).package.publish);
        }
        match self.metadata.find(id) {
            Some(package) => !package.publish,
            None => false,
        }
    }

    /// Returns the `rust-version` of a member, as it is written. Cargo reports it from 1.58 on; for
    /// an older one the manifest says it.
    pub fn rust_version(&self, id: PackageId) -> Option<&str>
        requires { Contains (context_view self.now).metadata.workspace_members id.index }
        ensures { option_copied result ≡ rust_version_at (context_view self.now) id.index }
    {
        if self.metadata.cargo_version < 58 {
            return own_version(self.manifests(id));
        }
        match self.metadata.find(id) {
            Some(package) => text_of(&package.rust_version),
            None => None,
        }
    }

    /// Returns the name of a package, in a verbose call with the folder of its manifest after it.
    pub fn name_verbose(&self, id: PackageId) -> VerboseName<'_>
        requires { id.index < length (context_view self.now).metadata.packages }
        ensures { option_map (verbose_name (context_view self.now).args.verbose)
            (package_at (context_view self.now) id.index) ≡ Some (name_text result) }
    {
        shown_name(self.packages(id), self.args.verbose)
    }
}

/// Returns whether cargo is too old to report which dependencies are normal ones, and that is
/// asked.
fn is_too_old(asked: bool, cargo_version: u32) -> bool
    ensures { IsTrue result ↔ IsTooOld asked cargo_version }
{
    asked && cargo_version < 41
}

/// Returns the notice that cargo's version isn't known, or none where it is known.
fn warnings(alloc: Global, version: Result<u32, String>) -> Result<Vec<Notice>, AllocError>
    ensures { IfOk result (λ notices.
        map note_of notices.items ≡ warnings_of (told_version version)) }
{
    let mut notices = Vec::new(alloc);
    match version {
        Ok(_) => Ok(notices),
        Err(text) => {
            let kind = NoticeKind::Warn;
            notices.push(Notice { kind, text })?;
            Ok(notices)
        }
    }
}

/// Collects the features of each member, by its manifest.
fn features_of(
    alloc: Global,
    metadata: &Metadata,
    manifests: &[Manifest],
    asked: bool,
) -> Result<Vec<Features>, MetadataFault>
    requires { length manifests.now ≡ length metadata.now.workspace_members.items }
    ensures ok { IfOk result (λ found. AreFeatures (metadata_view metadata.now) asked
        (map place_at metadata.now.workspace_members.items) manifests.now found.items) }
    ensures never { OnOk result ((id : ℕ) →
        Contains (map place_at metadata.now.workspace_members.items) id
        → ¬ MissesNode (metadata_view metadata.now) id asked) }
    ensures err { IfErr result (λ e. (e ≡ MetadataFault.Memory)
        ⊎ IsNodeFault (metadata_view metadata.now) asked e) }
{
    let mut found = Vec::new(alloc);
    for (at, manifest) in manifests.iter().enumerate() {
        let id = metadata.workspace_members[at];
        let features = match Features::new(alloc, metadata, manifest, id, asked) {
            Ok(features) => features,
            Err(fault) => return Err(fault),
        };
        found.push(features)?;
    }
    Ok(found)
}

fn of_node(fault: MetadataFault) -> ContextFault
    ensures { IsOfNode fault result }
{
    match fault {
        MetadataFault::Memory => ContextFault::Memory,
        fault => ContextFault::Metadata(fault),
    }
}

/// Returns the index of a member among the members, or their number where it is none of them.
fn place_of(members: &[PackageId], id: PackageId) -> usize
    ensures { result ≡ place_among (map place_at members.now) id.index }
{
    for (at, member) in members.iter().enumerate() {
        if *member == id {
            return at;
        }
    }
    members.len()
}

/// Returns whether publishing is stated, and denied.
fn denies(publish: Option<bool>) -> bool
    ensures { result ≡ option_map_or not publish false }
{
    match publish {
        Some(publish) => !publish,
        None => false,
    }
}

/// The `rust-version` in a manifest.
fn own_version(manifest: &Manifest) -> Option<&str>
    ensures { option_copied result ≡ manifest_rust_version manifest.now }
{
    match &manifest.package.rust_version {
        Some(version) => text_of(version),
        None => None,
    }
}

/// A text, where there is one.
fn text_of(text: &Option<String>) -> Option<&str>
    ensures { option_copied result ≡ optional_text text.now }
{
    match text {
        Some(text) => Some(text.as_str()),
        None => None,
    }
}

/// The name of a package, for verbose output or not.
fn shown_name(pkg: &Package, verbose: bool) -> VerboseName<'_>
    ensures { name_text result ≡ verbose_name verbose (package_view pkg.now) }
{
    let name = pkg.name.as_str();
    if verbose {
        let folder = Some(parent(pkg.manifest_path.as_str()));
        return VerboseName { name, folder };
    }
    VerboseName { name, folder: None }
}
