//! The manifests of the members of a workspace, read from their files.

ghost use Rattle.std.specs.Prelude.{◌<◌, [], IfOk, IfErr, length};
ghost use Rattle.hack_files.specs.Files.{Makes};
ghost use Rattle.hack_metadata.specs.MetadataView.{metadata_view};
ghost use Rattle.hack_load.specs.FailedLoads.{FailsOnlyReading, IsManifestAt, IsMemberPath};
ghost use Rattle.hack_load.specs.Internal.{ReadsOnly, IsCallFaultOfFile, IsOfManifest};
ghost use Rattle.hack_load.specs.CargoQuestions.{AreOfMembers, IsMemberFault, IsOfMember};
ghost use Rattle.hack_load.specs.CargoQuestions.{IsPackageFault};

use crate::fault::ContextFault;
use hack_files::fs::{Files, FsFault, read_to_string};
use hack_manifest::manifest::{Manifest, ManifestFault};
use hack_metadata::metadata::{Metadata, PackageId};
use std::alloc::Global;

/// Reads the manifests of the members, in their order.
#[tactic(auto, using(hack_files::proofs::FilesLemmas::trace_steps))]
pub(crate) fn manifests_of<F: Files>(
    alloc: Global,
    metadata: &Metadata,
    files: &mut F,
) -> Result<Vec<Manifest>, ContextFault>
    ensures stays { F.stays files.old files.new }
    ensures left { ReadsOnly F.tells (F.bytes_at files.old) (F.bytes_at files.new)
        (F.failed files.old) (F.failed files.new) result }
    ensures untraced { F.whole → Makes [] (F.trace files.old) (F.trace files.new)
        (F.bytes_at files.old) (F.bytes_at files.new) }
    ensures calls { FailsOnlyReading F.Files (IsMemberPath (metadata_view metadata.now))
        files.old files.new result }
    ensures ok { IfOk result (λ found. AreOfMembers F.tells (F.bytes_at files.old)
        (metadata_view metadata.now) found.items) }
    ensures err { IfErr result (IsMemberFault F.tells (F.bytes_at files.old)
        (metadata_view metadata.now) (F.failed files.old) (F.failed files.new)) }
{
    let mut found = Vec::new(alloc);
    for id in &metadata.workspace_members {
        let manifest = match manifest_of(alloc, metadata, *id, files) {
            Ok(manifest) => manifest,
            Err(fault) => return Err(fault),
        };
        found.push(manifest)?;
    }
    Ok(found)
}

/// Reads the manifest of a package.
fn manifest_of<F: Files>(
    alloc: Global,
    metadata: &Metadata,
    id: PackageId,
    files: &mut F,
) -> Result<Manifest, ContextFault>
    requires { id.index < length metadata.now.packages.items }
    ensures stays { F.stays files.old files.new }
    ensures left { ReadsOnly F.tells (F.bytes_at files.old) (F.bytes_at files.new)
        (F.failed files.old) (F.failed files.new) result }
    ensures untraced { F.whole → Makes [] (F.trace files.old) (F.trace files.new)
        (F.bytes_at files.old) (F.bytes_at files.new) }
    ensures calls { FailsOnlyReading F.Files (IsManifestAt (metadata_view metadata.now) id.index)
        files.old files.new result }
    ensures ok { IfOk result (IsOfMember F.tells (F.bytes_at files.old)
        (metadata_view metadata.now) id.index) }
    ensures err { IfErr result (IsPackageFault F.tells (F.bytes_at files.old)
        (metadata_view metadata.now) id.index (F.failed files.old) (F.failed files.new)) }
{
    let path = metadata.get(id).manifest_path.as_str();
    let text = match read_to_string(alloc, files, path) {
        Ok(text) => text,
        Err(fault) => return Err(of_file(fault)),
    };
    match Manifest::new(alloc, path, text, metadata.cargo_version) {
        Ok(manifest) => Ok(manifest),
        Err(fault) => Err(of_manifest(fault)),
    }
}

fn of_file(fault: FsFault) -> ContextFault
    ensures { IsCallFaultOfFile fault result }
{
    match fault {
        FsFault::Memory => ContextFault::Memory,
        fault => ContextFault::Files(fault),
    }
}

fn of_manifest(fault: ManifestFault) -> ContextFault
    ensures { IsOfManifest fault result }
{
    match fault {
        ManifestFault::Memory => ContextFault::Memory,
        fault => ContextFault::Manifest(fault),
    }
}
