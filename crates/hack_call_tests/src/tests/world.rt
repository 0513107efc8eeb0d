//! The environment of a call: what commands write, what files hold, and the variables.
//!
//! It is a text of settings, each a name with its value after ` = `. For a path, which begins with
//! `/`, the value is what the file holds; for a command's line it is what the command writes, and
//! all other commands fail. A name that begins with `CARGO` is a variable's. `failing` is the
//! number of the call of files that fails, and `host` cargo's host. Of two settings of a command or
//! a variable the first one counts. In a value `\n` is a line feed, `\s` a space and `\x` the byte
//! 255, which is not UTF-8; `@` and a name are one of the texts below.

use hack_files::fs::{FailingFiles, Files, MemoryFiles};
use hack_process::process::{End, FakeCaller};
use std::alloc::{AllocError, Global};

/// Cargo 1.70, whose host is `h`.
static OWN: &str = r"cargo 1.70.0\nrelease: 1.70.0\nhost: h\n";

/// A workspace without a package.
static EMPTY: &str =
    r#"{"packages":[],"workspace_members":[],"resolve":null,"workspace_root":"/w"}"#;

/// A workspace of the one package `p`.
static SINGLE: &str =
    r#"{"packages":[{"id":"p","name":"p","version":"0.1.0","dependencies":[],"features":{},"manifest_path":"/w/Cargo.toml","publish":null,"rust_version":"1.60"}],
"workspace_members":["p"],"resolve":null,"workspace_root":"/w"}"#;

/// A package with a node.
static NODE: &str =
    r#"{"packages":[{"id":"p","name":"p","version":"0.1.0","dependencies":[],"features":{},"manifest_path":"/w/Cargo.toml","publish":null,"rust_version":null}],
"workspace_members":["p"],"resolve":{"nodes":[{"id":"p","deps":[]}]},"workspace_root":"/w"}"#;

/// A workspace with the package `p` at its root and a private one, `q`, below.
static ROOTED: &str =
    r#"{"packages":[{"id":"q","name":"q","version":"0.1.0","dependencies":[],"features":{},"manifest_path":"/w/q/Cargo.toml","publish":[],"rust_version":null},
{"id":"p","name":"p","version":"0.1.0","dependencies":[],"features":{},"manifest_path":"/w/Cargo.toml","publish":null,"rust_version":"1.60"}],
"workspace_members":["p","q"],"resolve":null,"workspace_root":"/w"}"#;

/// A workspace without a package at its root.
static VIRTUAL: &str =
    r#"{"packages":[{"id":"a","name":"a","version":"0.1.0","dependencies":[],"features":{},"manifest_path":"/w/a/Cargo.toml","publish":null,"rust_version":null},
{"id":"b","name":"b","version":"0.1.0","dependencies":[],"features":{},"manifest_path":"/w/b/Cargo.toml","publish":null,"rust_version":null}],
"workspace_members":["a","b"],"resolve":null,"workspace_root":"/w"}"#;

fn named(value: &str) -> &str {
    match value {
        "@own" => OWN,
        "@empty" => EMPTY,
        "@single" => SINGLE,
        "@node" => NODE,
        "@rooted" => ROOTED,
        "@virtual" => VIRTUAL,
        value => value,
    }
}

fn byte_of(byte: u8, is_escape: bool) -> u8 {
    match (byte, is_escape) {
        (b'n', true) => b'\n',
        (b's', true) => b' ',
        (b'x', true) => 255,
        (byte, _) => byte,
    }
}

/// The bytes of a text in which a backslash and a letter denote one of them.
pub fn bytes_of(alloc: Global, escaped: &str) -> Result<Vec<u8>, AllocError> {
    let mut bytes = Vec::new(alloc);
    let mut is_escape = false;
    for byte in escaped.bytes() {
        if byte == b'\\' {
            is_escape = true;
        } else {
            bytes.push(byte_of(byte, is_escape))?;
            is_escape = false;
        }
    }
    Ok(bytes)
}

/// The settings of a call's environment.
#[derive(Drop)]
pub struct World {
    alloc: Global,
    pub variables: Vec<(String, String)>,
    pub host: Option<String>,
    pub caller: FakeCaller,
    files: MemoryFiles,
    failing: u64,
}

impl World {
    fn set_variable(&mut self, name: &str, value: &str) -> Result<(), AllocError> {
        let name = String::from_str(self.alloc, name)?;
        let value = String::from_str(self.alloc, value)?;
        self.variables.push((name, value))?;
        Ok(())
    }

    fn set_host(&mut self, host: &str) -> Result<(), AllocError> {
        self.host = Some(String::from_str(self.alloc, host)?);
        Ok(())
    }

    // What a file holds, or what a command writes.
    fn set_bytes(&mut self, name: &str, value: &str) -> Result<(), AllocError> {
        let bytes = bytes_of(self.alloc, named(value))?;
        if name.starts_with("/") {
            let _ = self.files.write(name, bytes.as_slice());
            return Ok(());
        }
        self.caller
            .answer(name, End::Status(0), bytes.as_slice(), b"")
    }

    fn set(&mut self, setting: &str) -> Result<(), AllocError> {
        let (name, value) = setting.split_once(" =").unwrap_or((setting, ""));
        let value = value.strip_prefix(" ").unwrap_or(value);
        match name {
            "" => Ok(()),
            "host" => self.set_host(value),
            "failing" => {
                self.failing = value.parse::<u64>().unwrap_or(0);
                Ok(())
            }
            name if name.starts_with("CARGO") => self.set_variable(name, value),
            name => self.set_bytes(name, value),
        }
    }

    fn set_all(&mut self, settings: &str, between: &str) -> Result<(), AllocError> {
        for setting in settings.split(between) {
            self.set(setting.trim())?;
        }
        Ok(())
    }
}

/// An environment while a call asks.
#[derive(Drop)]
pub struct Stage {
    pub variables: Vec<(String, String)>,
    pub host: Option<String>,
    pub caller: FakeCaller,
    pub files: FailingFiles<MemoryFiles>,
    /// How many files were left changed.
    pub left: u64,
}

fn staged(world: World) -> Stage {
    let World {
        alloc: _,
        variables,
        host,
        caller,
        files,
        failing,
    } = world;
    Stage {
        variables,
        host,
        caller,
        files: FailingFiles::new(files, failing),
        left: 0,
    }
}

/// The environment with these settings, separated by ` & `, followed by those on a line each.
pub fn stage_of(alloc: Global, first: &str, settings: &str) -> Result<Stage, AllocError> {
    let mut world = World {
        alloc,
        variables: Vec::new(alloc),
        host: None,
        caller: FakeCaller::new(alloc, End::Status(101)),
        files: MemoryFiles::new(alloc),
        failing: 0,
    };
    world.set_all(first, " & ")?;
    world.set_all(settings, "\n")?;
    Ok(staged(world))
}
