//! A package's manifest: its text, and what it says about its package and features.
//! <https://doc.rust-lang.org/cargo/reference/manifest.html>

ghost use Rattle.std.specs.Prelude.{◌≡◌, Some, IfOk, IfErr, string_bytes};
ghost use Rattle.toml.specs.Parse.{parse_document};
ghost use Rattle.toml.specs.View.{table_view};
ghost use Rattle.hack_manifest.specs.Manifest.{read_manifest};
ghost use Rattle.hack_manifest.specs.PieceView.{slice_view};
ghost use Rattle.hack_manifest.specs.ManifestResults.{ReturnsReading, IsManifest, facts_of};
ghost use Rattle.hack_manifest.specs.ManifestResults.{IsRefusal};
ghost use Rattle.hack_manifest.specs.Internal.{ReturnsFacts, IsTomlFault, IsFieldFault};

use crate::fault::ReadFault;
use crate::features::features_of;
pub use crate::laws::{cut_is_one, manifest_is_one, pieces_join};
pub use crate::package::ManifestPackage;
use crate::package::{package_table, publish, rust_version};
pub use crate::pieces::{Piece, Pieces, PiecesFault};
use crate::pieces::{cut, is_inline};
use std::alloc::{AllocError, Global};
use std::collections::BTreeMap;
use thiserror::Error;
use toml::Table;

/// A manifest.
#[derive(Drop)]
pub struct Manifest {
    /// The text that it was read from.
    pub text: String,
    /// What it says about its package.
    pub package: ManifestPackage,
    /// The features with their values.
    pub features: BTreeMap<String, Vec<String>>,
}

/// Why a manifest can't be read. Each error has the manifest's path.
#[derive(Debug, Drop, Error)]
pub enum ManifestFault {
    /// The text is no TOML document.
    #[error("failed to parse manifest `{0}` as toml")]
    Toml(String),
    /// The first field that is missing or has the wrong type.
    #[error("failed to parse `{0}` field from manifest `{1}`")]
    Field(&'static str, String),
    #[error("out of memory")]
    Memory,
}

impl From<AllocError> for ManifestFault {
    ghost use Rattle.hack_manifest.specs.declared.manifest.ManifestFault.TheVariants.{Memory};

    ghost from_gives = { λ _ e. e ≡ Memory };

    fn from(_e: AllocError) -> ManifestFault {
        ManifestFault::Memory
    }
}

impl Manifest {
    /// Reads a manifest. The path appears only in errors. `cargo_version` is the minor version of
    /// the cargo that reported the metadata: fields that these contain are not read here.
    pub fn new(
        alloc: Global,
        path: &str,
        text: String,
        cargo_version: u32,
    ) -> Result<Manifest, ManifestFault>
        ensures ok { IfOk result (IsManifest (string_bytes text) cargo_version) }
        ensures err { IfErr result (IsRefusal path.now (string_bytes text) cargo_version) }
    {
        let tree = match toml::table_from_str(alloc, text.as_str()) {
            Ok(tree) => tree,
            Err(e) if e.is_memory() => return Err(ManifestFault::Memory),
            Err(_) => return Err(toml_fault(alloc, path)),
        };
        match facts(alloc, &tree, text.as_str(), cargo_version) {
            Ok((package, features)) => Ok(Manifest {
                text,
                package,
                features,
            }),
            Err(ReadFault::Memory) => Err(ManifestFault::Memory),
            Err(ReadFault::Field(name)) => Err(field_fault(alloc, path, name)),
        }
    }
}

/// The error of a text that is no TOML.
fn toml_fault(alloc: Global, path: &str) -> ManifestFault
    ensures { IsTomlFault path.now result }
{
    match String::from_str(alloc, path) {
        Ok(path) => ManifestFault::Toml(path),
        Err(_) => ManifestFault::Memory,
    }
}

/// The error of a field.
fn field_fault(alloc: Global, path: &str, name: &'static str) -> ManifestFault
    ensures { IsFieldFault path.now name.now result }
{
    match String::from_str(alloc, path) {
        Ok(path) => ManifestFault::Field(name, path),
        Err(_) => ManifestFault::Memory,
    }
}

/// The content of a manifest with this tree and this text.
fn facts(
    alloc: Global,
    tree: &Table,
    text: &str,
    cargo_version: u32,
) -> Result<(ManifestPackage, BTreeMap<String, Vec<String>>), ReadFault>
    requires { parse_document text.now ≡ Some (table_view tree.now) }
    ensures { ReturnsFacts text.now cargo_version result }
{
    let cut = cut(alloc, text)?;
    read(alloc, tree, &cut.pieces, cargo_version)
}

/// The content of a manifest with this tree and these pieces, read in the order in which errors
/// count.
fn read(
    alloc: Global,
    tree: &Table,
    pieces: &[Piece<'_>],
    cargo_version: u32,
) -> Result<(ManifestPackage, BTreeMap<String, Vec<String>>), ReadFault>
    ensures { ReturnsReading (λ r. facts_of r.0 r.1) result
        (read_manifest cargo_version (slice_view pieces.now) (table_view tree.now)) }
{
    let table = package_table(tree, is_inline(pieces, "package"))?;
    let publish = publish(table, cargo_version)?;
    let rust_version = rust_version(alloc, table, cargo_version)?;
    let features = features_of(alloc, tree, is_inline(pieces, "features"))?;
    let package = ManifestPackage {
        publish,
        rust_version,
    };
    Ok((package, features))
}
