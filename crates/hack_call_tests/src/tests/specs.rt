//! Package ID specifications, applied to a package: whether one matches, or why that isn't known.

use crate::tests::given::read;
use crate::tests::workspace::{push_all, whole_text};
use crate::tests::world::bytes_of;
use hack_holds::{Ask, Wrong, hold};
use hack_metadata::cargo::{SpecFault, match_pkg_spec};
use hack_metadata::metadata::{Metadata, MetadataFault};
use std::alloc::{AllocError, Global};

/// The package to which specifications are applied.
#[derive(Clone, Copy)]
struct Named {
    name: &'static str,
    version: &'static str,
    id: &'static str,
}

impl Named {
    fn metadata(self, alloc: Global) -> Result<Metadata, MetadataFault> {
        let mut package = String::from_str(alloc, "[{\"id\":\"")?;
        push_all(&mut package, &[self.id, "\",\"name\":\"", self.name])?;
        push_all(&mut package, &["\",\"version\":\"", self.version])?;
        package.push_str("\",\"dependencies\":[],\"features\":{},\"manifest_path\":\"m\"}]")?;
        let text = whole_text(alloc, package.as_str(), "[]", "null")?;
        read(alloc, text.as_str(), 1)
    }
}

fn matched(metadata: &Metadata, spec: &str) -> &'static str {
    match metadata.packages.first() {
        Some(package) => match match_pkg_spec(package, spec) {
            Ok(true) => "true",
            Ok(false) => "false",
            Err(SpecFault::BadId) => "bad id",
            Err(SpecFault::BadVersion) => "bad version",
        },
        None => "no package",
    }
}

impl Ask for Named {
    fn answer(&mut self, alloc: Global, question: &str) -> Result<String, AllocError> {
        let bytes = bytes_of(alloc, question)?;
        let spec = String::from_utf8_lossy(alloc, &bytes)?;
        match self.metadata(alloc) {
            Ok(metadata) => String::from_str(alloc, matched(&metadata, spec.as_str())),
            Err(fault) => format!(in alloc; "{fault}"),
        }
    }
}

/// Checks rows on the package with this name, version and id.
fn on(
    alloc: Global,
    name: &'static str,
    version: &'static str,
    id: &'static str,
    rows: &str,
) -> Result<(), Wrong> {
    hold(alloc, &mut Named { name, version, id }, rows)
}

#[test]
fn a_package_of_a_registry(rt: HostRuntime) -> Result<(), Wrong> {
    on(
        rt.alloc(),
        "regex",
        "1.4.3",
        "registry+https://github.com/rust-lang/crates.io-index#regex@1.4.3",
        r"
            > regex
            | true
            > regex@1
            | true
            > regex@1.4
            | true
            > regex@1.4.3
            | true
            > regex:1.4
            | true
            > https://github.com/rust-lang/crates.io-index
            | true
            > https://github.com/rust-lang/crates.io-index#regex
            | true
            > https://github.com/rust-lang/crates.io-index#regex@1.4
            | true
            > https://github.com/rust-lang/crates.io-index#regex@1.4.3
            | true
            > https://github.com/rust-lang/crates.io-index#regex:1.4.3 \n
            | true
            > https://github.com/rust-lang/crates.io-index#
            | true
            > https://github.com/rust-lang/crates.io-index?
            | true
            > https://github.com/rust-lang/crates.io-index#1.4
            | true
            > registry+https://github.com/rust-lang/crates.io-index#regex@1.4.3
            | true
            > regex-syntax
            | false
            > regex@2
            | false
            > regex@1.5
            | false
            > regex@1.4.2
            | false
            > regex@1.4.4
            | false
            > regex@
            | false
            > regex@1.4.3-pre
            | false
            > regex@1.4.3+b
            | false
            > regex\s
            | false
            > rege
            | false
            >
            | false
            > https://github.com/rust-lang/crates.io-index#rege
            | false
            > https://github.com/rust-lang/crates.io-index#1.5
            | false
            > https://github.com/rust-lang/crates.io-index#rand@1.4.3
            | false
            > https://github.com/rust-lang/crates.io-index?branch=dev
            | false
            > http://github.com/rust-lang/crates.io-index
            | false
            > https://github.com/rust-lang/crates.io
            | false
            > https:/github.com
            | false
        ",
    )
}

#[test]
fn a_package_of_a_repository(rt: HostRuntime) -> Result<(), Wrong> {
    on(
        rt.alloc(),
        "regex",
        "1.4.3",
        "git+ssh://git@github.com/rust-lang/regex.git?branch=dev#regex@1.4.3",
        r"
            > regex
            | true
            > ssh://git@github.com/rust-lang/regex.git#regex@1.4.3
            | true
            > git+ssh://git@github.com/rust-lang/regex.git#regex@1.4.3
            | true
            > git+ssh://git@github.com/rust-lang/regex.git?branch=dev#regex@1.4.3
            | true
            > ssh://git@github.com/rust-lang/regex.git?branch=main#regex@1.4.3
            | false
        ",
    )
}

#[test]
fn a_fragment_that_is_a_version(rt: HostRuntime) -> Result<(), Wrong> {
    on(
        rt.alloc(),
        "cargo",
        "0.52.0",
        "git+https://github.com/rust-lang/cargo#0.52.0",
        r"
            > https://github.com/rust-lang/cargo#0.52.0
            | true
            > https://github.com/rust-lang/cargo#0.52
            | true
            > https://github.com/rust-lang/cargo#cargo
            | true
            > git+https://github.com/rust-lang/cargo#0.52.0
            | true
            > https://github.com/rust-lang/cargo#0.53
            | false
            > https://github.com/rust-lang/cargo#cargo-platform
            | false
            > https://github.com/rust-lang/cargo#cargo-platform@0.1.2
            | false
            > https://github.com/rust-lang/cargo#cargo@0.52.0
            | false
        ",
    )
}

#[test]
fn a_package_in_a_folder(rt: HostRuntime) -> Result<(), Wrong> {
    on(
        rt.alloc(),
        "foo",
        "1.1.8",
        "path+file:///path/to/my/project/foo#1.1.8",
        r"
            > foo
            | true
            > file:///path/to/my/project/foo
            | true
            > file:///path/to/my/project/foo#1.1.8
            | true
            > path+file:///path/to/my/project/foo#1.1
            | true
            > path+file:///path/to/my/project/foo#1.1.8
            | true
            > file:///path/to/my/project
            | false
        ",
    )
}

#[test]
fn versions_are_compared_part_by_part(rt: HostRuntime) -> Result<(), Wrong> {
    on(
        rt.alloc(),
        "n",
        "1.40.0-beta.1+b5",
        "n",
        r"
            > n@1
            | true
            > n@1.40
            | true
            > n@1.40.0
            | true
            > n@1.40.0-beta.1
            | true
            > n@1.40.0+b5
            | true
            > n@1.40.0-beta.1+b5
            | true
            > n@1.40.0-
            | true
            > n@1.4
            | false
            > n@1.40.0-beta
            | false
            > n@1.40.0+b6
            | false
            > n@1.40.0.0
            | false
            > n@+1.40
            | false
        ",
    )
}

#[test]
fn what_no_answer_is_known_of(rt: HostRuntime) -> Result<(), Wrong> {
    on(
        rt.alloc(),
        "n",
        "1.0",
        "n 1.0",
        r"
            > n
            | true
            > n@1
            | bad version
            > m
            | false
            > m://x
            | bad id
            > https://x#n
            | bad id
        ",
    )?;
    on(
        rt.alloc(),
        "n",
        "1.0",
        "https://x#n@1.0",
        r"
            > https://x
            | true
            > https://x#n
            | true
            > https://x#n@1
            | bad version
            > https://x#1
            | bad version
            > https://x#m
            | false
            > https://y#1
            | false
        ",
    )?;
    on(
        rt.alloc(),
        "n",
        "1.0.0",
        "https://x",
        r"
            > https://x#n
            | false
            > https://x
            | true
        ",
    )?;
    on(
        rt.alloc(),
        "https",
        "1.0.0",
        "https://x#https@1.0.0",
        r"
            > https
            | true
            > https://x
            | false
            > https@1.0
            | true
        ",
    )
}
