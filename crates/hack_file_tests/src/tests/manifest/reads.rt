//! What manifests say, and their errors.

use crate::tests::manifest::on;
use crate::tests::text::{plain, shown};
use hack_holds::Wrong;
use hack_manifest::manifest::{Manifest, ManifestFault, manifest_is_one};
use std::alloc::{AllocError, Global};
use std::collections::BTreeMap;

/// The text of an error.
pub fn told(alloc: Global, fault: &ManifestFault) -> Result<String, AllocError> {
    format!(in alloc; "{fault}")
}

fn read(alloc: Global, minor: u32, text: &str) -> Result<Manifest, ManifestFault> {
    Manifest::new(alloc, "p", plain(alloc, text)?, minor)
}

/// Publish and rust-version.
pub fn package(alloc: Global, question: &str) -> Result<String, AllocError> {
    let (minor, text) = question.split_once(' ').unwrap_or((question, ""));
    match read(alloc, minor.parse::<u32>().unwrap_or(0), text) {
        Ok(Manifest { package, .. }) => {
            format!(in alloc; "{:?} {:?}", package.publish, package.rust_version)
        }
        Err(fault) => told(alloc, &fault),
    }
}

pub fn features(alloc: Global, text: &str) -> Result<String, AllocError> {
    match read(alloc, 58, text) {
        Ok(manifest) => all(alloc, &manifest.features),
        Err(fault) => told(alloc, &fault),
    }
}

fn all(alloc: Global, features: &BTreeMap<String, Vec<String>>) -> Result<String, AllocError> {
    let mut text = String::new(alloc);
    for (name, values) in features.iter() {
        push_feature(&mut text, name.as_str(), values)?;
    }
    Ok(text)
}

fn push_feature(text: &mut String, name: &str, values: &[String]) -> Result<(), AllocError> {
    text.push_str(name)?;
    text.push('=')?;
    for value in values {
        text.push_str(value.as_str())?;
        text.push(',')?;
    }
    text.push(';')
}

/// The text that a manifest keeps.
pub fn kept(alloc: Global, text: &str) -> Result<String, AllocError> {
    match read(alloc, 58, text) {
        Ok(manifest) => shown(alloc, manifest.text.as_str()),
        Err(fault) => told(alloc, &fault),
    }
}

#[test]
fn fields_of_a_package(rt: HostRuntime) -> Result<(), Wrong> {
    on(
        rt.alloc(),
        r#"
            > package 38 [package]\n
            | Some(true) Some(None)
            > package 38 [package]\npublish = true
            | Some(true) Some(None)
            > package 38 [package]\npublish = false
            | Some(false) Some(None)
            > package 38 [package]\npublish = []
            | Some(false) Some(None)
            > package 38 [package]\npublish = ['r']
            | Some(true) Some(None)
            > package 39 [package]\npublish = false
            | None Some(None)
            > package 39 [package]\npublish = 1
            | None Some(None)
            > package 57 [package]\nrust-version = '1.60'
            | None Some(Some("1.60"))
            > package 58 [package]\nrust-version = '1.60'
            | None None
            > package 58 [package]\nrust-version = 1
            | None None
            > package 58 package.name = 'a'
            | None None
            > package 58 [package.metadata]
            | None None
        "#,
    )
}

#[test]
fn faults_of_a_package(rt: HostRuntime) -> Result<(), Wrong> {
    on(
        rt.alloc(),
        r"
            > package 58 [package\n
            | failed to parse manifest `p` as toml
            > package 58
            | failed to parse `package` field from manifest `p`
            > package 58 [workspace]\n
            | failed to parse `package` field from manifest `p`
            > package 58 package = 1
            | failed to parse `package` field from manifest `p`
            > package 58 package = {}
            | failed to parse `package` field from manifest `p`
            > package 58 [[package]]
            | failed to parse `package` field from manifest `p`
            > package 38 features = 1\n[package]\npublish = 1\nrust-version = 1
            | failed to parse `publish` field from manifest `p`
            > package 38 [package]\npublish = 'x'
            | failed to parse `publish` field from manifest `p`
            > package 39 features = 1\n[package]\npublish = 1\nrust-version = 1
            | failed to parse `rust-version` field from manifest `p`
        ",
    )
}

#[test]
fn features_of_a_manifest(rt: HostRuntime) -> Result<(), Wrong> {
    on(
        rt.alloc(),
        r"
            > features [package]
            |
            > features [features]\na = []\n[package]
            | a=;
            > features features.a = []\n[package]
            | a=;
            > features features = { a = [] }\n[package]
            | failed to parse `features` field from manifest `p`
            > features features = {}\n[package]
            | failed to parse `features` field from manifest `p`
            > features features = 1\n[package]
            | failed to parse `features` field from manifest `p`
            > features [package]\n[[features]]
            | failed to parse `features` field from manifest `p`
            > features [package]\n[features]\na = 1
            | failed to parse `features` field from manifest `p`
            > features [package]\n[features.a]
            | failed to parse `features` field from manifest `p`
            > features [package]\n[features]\nb = ['x', 1, 'y']\na = ['b']
            | a=b,;b=x,y,;
            > features [package]\nfeatures = {}\n[x]\nfeatures = {}
            |
        ",
    )
}

#[test]
fn a_manifest_keeps_its_text(rt: HostRuntime) -> Result<(), Wrong> {
    manifest_is_one();
    on(
        rt.alloc(),
        r"
            > text # c\n[package]\n
            | # c\n[package]\n
            > fault of memory
            | out of memory
        ",
    )
}
