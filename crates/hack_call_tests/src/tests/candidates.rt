//! The candidates of a package. A question has the member in its manifest, the member in the
//! metadata and the nodes of the graph, separated by ` $ `. The packages `log` and `rand` are
//! outside the workspace. The answer has the package's features, optional dependencies, and
//! features of dependencies, each after its variant and, for the last, the place of the slash.
//! Where a single candidate is asked for, the question is its name, and the answer whether it
//! exists.

use crate::tests::given::{manifest_of, read};
use crate::tests::workspace::{metadata_text, push_all};
use hack_features::feature::Feature;
use hack_holds::{Ask, Wrong, hold};
use hack_load::features::Features;
use hack_manifest::manifest::Manifest;
use hack_metadata::metadata::{Metadata, MetadataFault};
use std::alloc::{AllocError, Global};

static OTHERS: &str = r#",{"id":"log","name":"log","version":"0.4.0","dependencies":[],
"features":{"std":[],"kv":["std"]},"manifest_path":"/log/Cargo.toml","publish":null,"rust_version":null}
,{"id":"rand","name":"rand","version":"0.8.0","dependencies":[],
"features":{"small":[]},"manifest_path":"/rand/Cargo.toml","publish":null,"rust_version":null}"#;

/// The candidates to ask for.
#[derive(Clone, Copy)]
struct Candidates<'a> {
    /// The package, as in a question, where the questions are names.
    package: Option<&'a str>,
    /// Whether features of dependencies are asked for.
    with_dependencies: bool,
}

fn push_feature(text: &mut String, alloc: Global, feature: &Feature) -> Result<(), AllocError> {
    match feature {
        Feature::Normal { name } => push_all(text, &[name.as_str(), " "]),
        Feature::Group { name, .. } => push_all(text, &["group:", name.as_str(), " "]),
        Feature::Path { name, _slash } => {
            text.push_str(format!(in alloc; "{_slash}:{name} ")?.as_str())
        }
    }
}

/// Appends features with their variants to the text.
fn push_features(text: &mut String, alloc: Global, features: &[Feature]) -> Result<(), AllocError> {
    for feature in features {
        push_feature(text, alloc, feature)?;
    }
    Ok(())
}

fn listed(alloc: Global, features: &Features) -> Result<String, AllocError> {
    let mut text = String::new(alloc);
    push_features(&mut text, alloc, features.normal())?;
    text.push_str("| ")?;
    push_features(&mut text, alloc, features.optional_deps())?;
    text.push_str("| ")?;
    push_features(&mut text, alloc, features.deps_features())?;
    text.push_str(".")?;
    Ok(text)
}

/// The metadata of a member and of nodes.
fn metadata_of(alloc: Global, member: &str, nodes: &str) -> Result<Metadata, MetadataFault> {
    let mut resolve = String::new(alloc);
    push_all(&mut resolve, &["{\"nodes\":[", nodes, "]}"])?;
    let text = metadata_text(alloc, member, OTHERS, resolve.as_str())?;
    read(alloc, text.as_str(), 90)
}

impl Candidates<'_> {
    fn shown(self, alloc: Global, features: &Features, name: &str) -> Result<String, AllocError> {
        match self.package {
            Some(_) if features.contains(name) => String::from_str(alloc, "there"),
            Some(_) => String::from_str(alloc, "not there"),
            None => listed(alloc, features),
        }
    }

    fn told(
        self,
        alloc: Global,
        metadata: &Metadata,
        manifest: &Manifest,
        name: &str,
    ) -> Result<String, AllocError> {
        let Some(id) = metadata.workspace_members.get(0) else {
            return String::from_str(alloc, "no member");
        };
        match Features::new(alloc, metadata, manifest, *id, self.with_dependencies) {
            Ok(features) => self.shown(alloc, &features, name),
            Err(fault) => format!(in alloc; "{fault}"),
        }
    }
}

impl Ask for Candidates<'_> {
    fn answer(&mut self, alloc: Global, question: &str) -> Result<String, AllocError> {
        let package = self.package.unwrap_or(question);
        let (own, rest) = package.split_once(" $ ").unwrap_or((package, ""));
        let (member, nodes) = rest.split_once(" $ ").unwrap_or((rest, ""));
        match (metadata_of(alloc, member, nodes), manifest_of(alloc, own)) {
            (Ok(metadata), Ok(manifest)) => self.told(alloc, &metadata, &manifest, question),
            _ => String::from_str(alloc, "no metadata, or no manifest"),
        }
    }
}

/// Checks rows on packages.
fn listed_as(alloc: Global, with_dependencies: bool, rows: &str) -> Result<(), Wrong> {
    let mut asked = Candidates {
        package: None,
        with_dependencies,
    };
    hold(alloc, &mut asked, rows)
}

#[test]
fn optional_dependencies(rt: HostRuntime) -> Result<(), Wrong> {
    listed_as(
        rt.alloc(),
        false,
        "
            > p - tls:dep:rustls default $ p / rustls log
            | default tls | log | .
            > p $ p / rustls
            | | rustls | .
            > p - b a:log $ p / log
            | a b | log | .
            > p - log $ p / log
            | log | | .
            > p - a:dep:lo,dep:logs,log/std,xdep:log $ p / log
            | a | log | .
            > p - a:b,dep:l $ p / log:l -rand l log
            | a | log | .
            > p $ p / log:l -rand l log
            | | l log | .
        ",
    )
}

#[test]
fn features_of_dependencies(rt: HostRuntime) -> Result<(), Wrong> {
    listed_as(
        rt.alloc(),
        true,
        r#"
            > p $ p / -log:l -log $ {"id":"p","deps":[{"pkg":"log","dep_kinds":[{"kind":null,"target":null}]}]}
            | | | 1:l/kv 1:l/std .
            > p $ p / -log -rand:r $ {"id":"p","deps":[{"pkg":"log","dep_kinds":[{"kind":null,"target":null}]}]}
            | | | 3:log/kv 3:log/std .
            > p $ p / -log -rand:r $ {"id":"p","deps":[{"pkg":"log","dep_kinds":[{"kind":"dev","target":null}]}]}
            | | | .
            > p $ p / -log -rand:r $ {"id":"p","deps":[{"pkg":"log","dep_kinds":[{"kind":"build","target":null}]}]}
            | | | .
            > p $ p / -log -rand:r $ {"id":"p","deps":[{"pkg":"log","dep_kinds":[{"kind":null,"target":"cfg(unix)"}]}]}
            | | | .
            > p $ p / -log -rand:r $ {"id":"p","deps":[{"pkg":"rand","dep_kinds":[{"kind":"dev","target":null},{"kind":null,"target":null}]},{"pkg":"log","dep_kinds":[{"kind":null,"target":null}]}]}
            | | | 1:r/small 3:log/kv 3:log/std .
            > p $ p $ {"id":"p","deps":[{"pkg":"log","dep_kinds":[{"kind":null,"target":null}]}]}
            | | | .
        "#,
    )
}

#[test]
fn a_missing_node(rt: HostRuntime) -> Result<(), Wrong> {
    listed_as(
        rt.alloc(),
        true,
        r#"
            > p $ p
            | failed to parse `nodes` field from metadata
            > p $ p $ {"id":"log","deps":[]}
            | failed to parse `nodes` field from metadata
        "#,
    )?;
    listed_as(
        rt.alloc(),
        false,
        r#"
            > p $ p $ {"id":"log","deps":[]}
            | | | .
        "#,
    )
}

#[test]
fn names_that_are_there(rt: HostRuntime) -> Result<(), Wrong> {
    let mut asked = Candidates {
        package: Some(
            r#"p - a $ p / -log rand $ {"id":"p","deps":[{"pkg":"log","dep_kinds":[{"kind":null,"target":null}]}]}"#,
        ),
        with_dependencies: true,
    };
    hold(
        rt.alloc(),
        &mut asked,
        "
            > a
            | there
            > rand
            | there
            > log/kv
            | there
            > log/std
            | there
            >
            | not there
            > b
            | not there
            > log
            | not there
            > kv
            | not there
            > log/k
            | not there
            > rand/small
            | not there
        ",
    )
}
