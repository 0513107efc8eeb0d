//! The first field that is missing or has the wrong type. A question is the minor version of the
//! cargo that reports metadata, and their text; `@blank` is a million bytes of white space, and
//! `@open` and `@close` are 200 brackets. The answer is `read`, or the error.

use crate::tests::given::read;
use hack_holds::{Ask, Wrong, hold};
use std::alloc::{AllocError, Global};

/// The text of the metadata around that of a question.
#[derive(Clone, Copy)]
struct Around {
    front: &'static str,
    behind: &'static str,
}

const WHOLE: Around = Around {
    front: "",
    behind: "",
};

/// The packages of metadata without members.
const PACKAGES: Around = Around {
    front: r#"{"packages":"#,
    behind: r#","workspace_members":[],"resolve":null,"workspace_root":"/w"}"#,
};

/// The nodes of metadata with one package, whose id is `a`.
const NODES: Around = Around {
    front: r#"{"packages":[{"id":"a","name":"p","version":"1.0.0","dependencies":[],"features":{},"manifest_path":"m","publish":null}],"workspace_members":["a"],"resolve":{"nodes":"#,
    behind: r#"},"workspace_root":"/w"}"#,
};

/// The text, in which a name is replaced by a part that occurs many times.
fn replaced(
    alloc: Global,
    text: &str,
    name: &str,
    part: &str,
    times: usize,
) -> Result<String, AllocError> {
    let long = part.repeat(alloc, times)?;
    text.replace(alloc, name, long.as_str())
}

fn filled(alloc: Global, text: &str) -> Result<String, AllocError> {
    let text = replaced(alloc, text, "@blank", " \t\r\n", 250_000)?;
    let text = replaced(alloc, text.as_str(), "@open", "[", 200)?;
    replaced(alloc, text.as_str(), "@close", "]", 200)
}

impl Around {
    fn text(self, alloc: Global, text: &str) -> Result<String, AllocError> {
        if text.contains('@') {
            return filled(alloc, text);
        }
        let mut whole = String::new(alloc);
        whole.push_str(self.front)?;
        whole.push_str(text)?;
        whole.push_str(self.behind)?;
        Ok(whole)
    }
}

impl Ask for Around {
    fn answer(&mut self, alloc: Global, question: &str) -> Result<String, AllocError> {
        let (minor, text) = question.split_once(' ').unwrap_or((question, ""));
        let text = self.text(alloc, text)?;
        match read(alloc, text.as_str(), minor.parse::<u32>().unwrap_or(0)) {
            Ok(_) => String::from_str(alloc, "read"),
            Err(fault) => format!(in alloc; "{fault}"),
        }
    }
}

#[test]
fn fields_of_the_whole(rt: HostRuntime) -> Result<(), Wrong> {
    hold(
        rt.alloc(),
        &mut WHOLE,
        r#"
            > 90 {"packages":[],"workspace_members":[],"resolve":null,"workspace_root":"/w"}
            | read
            > 90 {}
            | failed to parse `packages` field from metadata
            > 90 {"packages":[]}
            | failed to parse `workspace_members` field from metadata
            > 90 {"packages":[],"workspace_members":[]}
            | failed to parse `resolve` field from metadata
            > 90 {"packages":[],"workspace_members":[],"resolve":null}
            | failed to parse `workspace_root` field from metadata
            > 90 {"packages":[],"workspace_members":[],"workspace_root":"/w"}
            | failed to parse `resolve` field from metadata
            > 90 {"packages":[],"workspace_members":[],"resolve":null,"workspace_root":1}
            | failed to parse `workspace_root` field from metadata
            > 90 {"packages":[],"workspace_members":["x"],"resolve":null,"workspace_root":"/w"}
            | failed to parse `workspace_members` field from metadata
            > 90 {"packages":[],"workspace_members":[1],"resolve":null,"workspace_root":"/w"}
            | failed to parse `workspace_members` field from metadata
            > 90 {"packages":[],"workspace_members":{},"resolve":null,"workspace_root":"/w"}
            | failed to parse `workspace_members` field from metadata
            > 90 {"packages":[1],"workspace_members":["x"],"resolve":null,"workspace_root":"/w"}
            | failed to parse `packages` field from metadata
            > 90 {"packages":[1],"workspace_members":[],"resolve":null,"workspace_root":"/w"}
            | failed to parse `packages` field from metadata
            > 90 {"packages":{},"workspace_members":[],"resolve":null,"workspace_root":"/w"}
            | failed to parse `packages` field from metadata
            > 90 {"packages":[],"workspace_members":[],"resolve":"x","workspace_root":"/w"}
            | failed to parse `resolve` field from metadata
            > 90 {"packages":[],"workspace_members":[],"resolve":{},"workspace_root":"/w"}
            | failed to parse `nodes` field from metadata
            > 90 {"packages":[],"workspace_members":[],"resolve":{"nodes":{}},"workspace_root":"/w"}
            | failed to parse `nodes` field from metadata
            > 90 {"packages":[],"workspace_members":[],"resolve":{"nodes":[[]]},"workspace_root":"/w"}
            | failed to parse `nodes` field from metadata
            > 90 {"packages":[],"workspace_members":[],"resolve":{"nodes":[]},"workspace_root":"/w"}
            | read
        "#,
    )
}

#[test]
fn fields_of_a_package(rt: HostRuntime) -> Result<(), Wrong> {
    hold(
        rt.alloc(),
        &mut PACKAGES,
        r#"
            > 57 [{}]
            | failed to parse `id` field from metadata
            > 57 [{"id":1}]
            | failed to parse `id` field from metadata
            > 57 [{"id":"a"}]
            | failed to parse `name` field from metadata
            > 57 [{"id":"a","name":"p"}]
            | failed to parse `version` field from metadata
            > 57 [{"id":"a","name":"p","version":"1.0.0"}]
            | failed to parse `dependencies` field from metadata
            > 57 [{"id":"a","name":"p","version":"1.0.0","dependencies":{}}]
            | failed to parse `dependencies` field from metadata
            > 57 [{"id":"a","name":"p","version":"1.0.0","dependencies":["d"]}]
            | failed to parse `dependencies` field from metadata
            > 57 [{"id":"a","name":"p","version":"1.0.0","dependencies":[]}]
            | failed to parse `features` field from metadata
            > 57 [{"id":"a","name":"p","version":"1.0.0","dependencies":[],"features":[]}]
            | failed to parse `features` field from metadata
            > 57 [{"id":"a","name":"p","version":"1.0.0","dependencies":[],"features":{"f":[1]}}]
            | failed to parse `features` field from metadata
            > 57 [{"id":"a","name":"p","version":"1.0.0","dependencies":[],"features":{"f":"g"}}]
            | failed to parse `features` field from metadata
            > 57 [{"id":"a","name":"p","version":"1.0.0","dependencies":[],"features":{}}]
            | failed to parse `manifest_path` field from metadata
            > 38 [{"id":"a","name":"p","version":"1.0.0","dependencies":[],"features":{},"manifest_path":"m"}]
            | read
            > 39 [{"id":"a","name":"p","version":"1.0.0","dependencies":[],"features":{},"manifest_path":"m"}]
            | failed to parse `publish` field from metadata
            > 39 [{"id":"a","name":"p","version":"1.0.0","dependencies":[],"features":{},"manifest_path":"m","publish":true}]
            | failed to parse `publish` field from metadata
            > 57 [{"id":"a","name":"p","version":"1.0.0","dependencies":[],"features":{},"manifest_path":"m","publish":null}]
            | read
            > 58 [{"id":"a","name":"p","version":"1.0.0","dependencies":[],"features":{},"manifest_path":"m","publish":null}]
            | failed to parse `rust_version` field from metadata
            > 58 [{"id":"a","name":"p","version":"1.0.0","dependencies":[],"features":{},"manifest_path":"m","publish":null,"rust_version":1}]
            | failed to parse `rust_version` field from metadata
            > 58 [{"id":"a","name":"p","version":"1.0.0","dependencies":[],"features":{},"manifest_path":"m","publish":null,"rust_version":null}]
            | read
        "#,
    )
}

#[test]
fn fields_of_a_dependency(rt: HostRuntime) -> Result<(), Wrong> {
    hold(
        rt.alloc(),
        &mut PACKAGES,
        r#"
            > 57 [{"id":"a","name":"p","version":"1.0.0","dependencies":[{}]}]
            | failed to parse `name` field from metadata
            > 57 [{"id":"a","name":"p","version":"1.0.0","dependencies":[{"name":"d"}]}]
            | failed to parse `optional` field from metadata
            > 57 [{"id":"a","name":"p","version":"1.0.0","dependencies":[{"name":"d","optional":null}]}]
            | failed to parse `optional` field from metadata
            > 57 [{"id":"a","name":"p","version":"1.0.0","dependencies":[{"name":"d","optional":true}]}]
            | failed to parse `rename` field from metadata
            > 57 [{"id":"a","name":"p","version":"1.0.0","dependencies":[{"name":"d","optional":true,"rename":1}]}]
            | failed to parse `rename` field from metadata
            > 57 [{"id":"a","name":"p","version":"1.0.0","dependencies":[{"name":"d","optional":true,"rename":null}]}]
            | failed to parse `features` field from metadata
        "#,
    )
}

#[test]
fn fields_of_a_node(rt: HostRuntime) -> Result<(), Wrong> {
    hold(
        rt.alloc(),
        &mut NODES,
        r#"
            > 29 [{}]
            | failed to parse `id` field from metadata
            > 29 [{"id":"x"}]
            | failed to parse `id` field from metadata
            > 29 [{"id":"a"}]
            | read
            > 30 [{"id":"a"}]
            | failed to parse `deps` field from metadata
            > 30 [{"id":"x","deps":[1]}]
            | failed to parse `deps` field from metadata
            > 30 [{"id":"x","deps":[]}]
            | failed to parse `id` field from metadata
            > 30 [{"id":"a","deps":[{}]}]
            | failed to parse `pkg` field from metadata
            > 41 [{"id":"a","deps":[{"pkg":"x"}]}]
            | failed to parse `pkg` field from metadata
            > 40 [{"id":"a","deps":[{"pkg":"a"}]}]
            | read
            > 41 [{"id":"a","deps":[{"pkg":"a"}]}]
            | failed to parse `dep_kinds` field from metadata
            > 41 [{"id":"a","deps":[{"pkg":"a","dep_kinds":[null]}]}]
            | failed to parse `dep_kinds` field from metadata
            > 41 [{"id":"a","deps":[{"pkg":"a","dep_kinds":[{}]}]}]
            | failed to parse `kind` field from metadata
            > 41 [{"id":"a","deps":[{"pkg":"a","dep_kinds":[{"kind":1}]}]}]
            | failed to parse `kind` field from metadata
            > 41 [{"id":"a","deps":[{"pkg":"a","dep_kinds":[{"kind":null}]}]}]
            | failed to parse `target` field from metadata
            > 41 [{"id":"a","deps":[{"pkg":"a","dep_kinds":[{"kind":null,"target":null}]}]}]
            | read
        "#,
    )
}

#[test]
fn texts_that_are_no_object(rt: HostRuntime) -> Result<(), Wrong> {
    hold(
        rt.alloc(),
        &mut WHOLE,
        r#"
            > 90 @open@close
            | the output is no JSON object
            > 90 {"packages":[]
            | the output is no JSON object
            > 90
            | the output is no JSON object
            > 90 []
            | the output is no JSON object
            > 90 null
            | the output is no JSON object
        "#,
    )
}

#[test]
fn a_million_bytes_of_white_space(rt: HostRuntime) -> Result<(), Wrong> {
    hold(
        rt.alloc(),
        &mut WHOLE,
        r#"
            > 90 @blank
            | the output is no JSON object
            > 90 @blank{"packages":[],"workspace_members":[],"resolve":null,"workspace_root":"/w"}@blank
            | read
            > 90 {"packages":[],"workspace_members":[],"resolve":null,"workspace_root":"/w"}@blankx
            | the output is no JSON object
        "#,
    )
}
