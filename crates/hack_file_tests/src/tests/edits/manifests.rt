//! Manifests in the forms that crates have. Each is shown with what an edit does to it, line by
//! line: a line after `-` is removed, one after `+` is added, and one after a space stays.

use crate::tests::edits::on;
use crate::tests::text::push_shown;
use hack_holds::Wrong;
use std::alloc::{AllocError, Global};

/// Checks a row for each manifest, which a line `> NAME` begins: what an edit makes of it.
fn changed(alloc: Global, manifests: &str) -> Result<(), Wrong> {
    let mut rows = String::new(alloc);
    for lines in manifests.split("\n> ").skip(1) {
        push_row(&mut rows, lines)?;
    }
    on(alloc, rows.as_str())
}

fn push_row(rows: &mut String, lines: &str) -> Result<(), AllocError> {
    rows.push_str("> edit ")?;
    push_side(rows, lines, '-')?;
    rows.push_str("\n| ")?;
    push_side(rows, lines, '+')?;
    rows.push('\n')
}

/// Appends the lines that stay, and those with the mark, to the rows.
fn push_side(rows: &mut String, lines: &str, mark: char) -> Result<(), AllocError> {
    for line in lines.split_inclusive('\n') {
        if let Some(rest) = line.strip_prefix(' ') {
            push_shown(rows, rest)?;
        } else if let Some(rest) = line.strip_prefix(mark) {
            push_shown(rows, rest)?;
        }
    }
    Ok(())
}

#[test]
fn libraries(rt: HostRuntime) -> Result<(), Wrong> {
    changed(
        rt.alloc(),
        r#"
> numbers
 [package]
 name = "numbers"
 version = "1.0.4"
 keywords = ["integer"]
 exclude = ["benches/**"]
 
 [features]
 no-panic = ["dep:no-panic"]
 
 [dependencies]
 no-panic = { version = "0.1", optional = true }
 
 [lib]
 doc-scrape-examples = false
 
 [package.metadata.docs.rs]
 targets = ["x86_64-unknown-linux-gnu"]

> data
 [package]
 name = "data" # published as `data`
 version = "1.0.0"
 build = "build.rs"
 
 [dependencies]
 data_derive = { version = "1", optional = true, path = "../data_derive" }
-
-[dev-dependencies]
-data_derive = { version = "1", path = "../data_derive" }
 
 ### FEATURES #################################################################
 
 [features]
 default = ["std"]
 
 # Provide derive macros.
 derive = ["data_derive"]
 
 # Provide impls for common standard library types.
 std = []
 unstable = []
 
 # The macros and the library are released together.
 [target.'cfg(any())'.dependencies]
 data_derive = { version = "=1.0.0", path = "../data_derive" }

> random
 [package]
 name = "random"
 
 [package.metadata.playground]
 features = ["small_rng"]
 
 [features]
 # Meta-features:
 default = ["std", "std_rng"]
-std = ["core/std", "alloc", "chacha?/std", "bincode/std", "rayon/std"]
+std = ["core/std", "alloc", "chacha?/std"]
 alloc = ["core/alloc"]
 
 [workspace]
 members = [
     "core",
     "chacha",
 ]
 exclude = ["benches", "distr_test"]
 
 [dependencies]
 core = { path = "core", version = "0.9", default-features = false }
 log = { version = "0.4.4", optional = true }
-
-[dev-dependencies]
-pcg = { path = "pcg", version = "0.9" }
-# Only to test serialization
-bincode = "1.2.1"
-rayon = "1.7"

> libc-like
 [package]
 name = "libc-like"
 
 [target.'cfg(unix)'.dependencies]
 libc = "0.2"
-
-[target.'cfg(unix)'.dev-dependencies]
-nix = { version = "0.27", features = ["process", "signal"] }
 
 [target.'cfg(windows)'.dependencies.windows-sys]
 version = "0.52"
 features = [
     "Win32_Foundation",
     "Win32_Security", # [dev-dependencies]
 ]
-
-[target."cfg(windows)".dev-dependencies.winapi]
-version = "0.3"
-features = ["winbase"]

> dotted
 package.name = "dotted"
 package.version = "0.1.0"
 dependencies.a = "1"
-dev-dependencies.b = "1"
-dev-dependencies.c.version = "2"
-target.'cfg(loom)'.dev-dependencies.loom = "0.7"
 target.'cfg(loom)'.dependencies.loom = "0.7"
-features.f = ["a/x", "b/x", "loom/y"]
+features.f = ["a/x", "loom/y"]
"#,
    )
}

#[test]
fn workspaces(rt: HostRuntime) -> Result<(), Wrong> {
    changed(
        rt.alloc(),
        r#"
> a workspace
 [workspace]
 resolver = "2"
 members = ["crates/*", "xtask"]
 
 [workspace.package]
 edition = "2021"
 rust-version = "1.70"
 
 [workspace.dependencies]
 serde = { version = "1", features = ["derive"] }
 dev-dependencies = "0.1"
 
 [workspace.lints.rust]
 unsafe_code = "forbid"

> member
 [package]
 name = "member"
 version.workspace = true
 edition.workspace = true
 
 [lints]
 workspace = true
 
 [dependencies]
 serde.workspace = true
-
-[dev-dependencies]
-serde_json.workspace = true
-tempfile = { workspace = true }

> root
 [workspace]
 members = ["tool"]
 
 [package]
 name = "root"
 
 [[bin]]
 name = "root"
 path = "src/main.rs"
-
-[dev-dependencies]
-tool = { path = "tool" }
 
 [profile.release]
 lto = true
 
 [profile.dev.package."*"]
 opt-level = 1
 
 [patch.crates-io]
 a = { git = "https://example.com/a" }

> macros
 [package]
 name = "macros"
 
 [lib]
 proc-macro = true
 
 [[test]]
 name = "tests"
 path = "tests/progress.rs"
 
 [dependencies]
 syn = { version = "2", features = ["full"] }
-
-[dev-dependencies]
-trybuild = "1"
-macros-core = { path = "../core", version = "0.1" }
 
 [badges]
 maintenance = { status = "passively-maintained" }

> server
 cargo-features = ["edition2024"]
 
 [package]
 name = "server"
 
 [features]
 default = ["http1", "server"]
-full = [
-    "client",
-    "http1",
-    "tokio-test/sync", # for the tests
-    "hyper-test/full",
-]
+full = [
+    "client",
+    "http1",
+]
 client = []
 http1 = []
 server = []
 
 [dependencies]
 bytes = "1.2"
-
-[dev-dependencies]
-tokio-test = "0.4"
-hyper-test = { version = "0.1", features = ["full"] }
 
 [[example]]
 name = "client"
 path = "examples/client.rs"
 required-features = ["full"]
 
 [[bench]]
 name = "body"
 path = "benches/body.rs"
"#,
    )
}

#[test]
fn programs(rt: HostRuntime) -> Result<(), Wrong> {
    changed(
        rt.alloc(),
        r#"
> search
 [package]
 name = "search"
 version = "14.1.0"  #:version
 description = """
 search is a line-oriented search tool that searches the current
 [dev-dependencies]
 directory.
 """
 
 [[bin]]
 bench = false
 path = "crates/core/main.rs"
 name = "rg"
 
 [dependencies]
 anyhow = "1.0.75"
 
 [target.'cfg(all(target_env = "musl", target_pointer_width = "64"))'.dependencies.jemallocator]
 version = "0.5.0"
-
-[dev-dependencies]
-serde = "1.0.193"
-walkdir = "2"
 
 [profile.release]
 debug = 1

> single
 # Generated by a tool
 [package]
 name='single'
 authors = [ 'A <a@example.com>' , ]
-[dev-dependencies]
-[dev-dependencies.a]
-version='1'
-[dev-dependencies."b"]
-path = 'b'
 [build-dependencies]
 cc='1'

> both
 [package]
 name = "both"
 
 [dependencies]
 regex = "1"
-
-[dev-dependencies]
-regex = { version = "1", features = ["unicode"] }
-quickcheck = "1"
 
 [features]
-unicode = ["regex/unicode", "quickcheck/regex"]
+unicode = ["regex/unicode"]
-only = [ "quickcheck/a" ]
+only = [ ]
 none = []

> builds
 [package]
 name = "builds"
 build = "build.rs"
 links = "z"
 
 [build-dependencies]
 pkg-config = "0.3"
-
-# both for the build and for tests
-[dev-dependencies]
-pkg-config = "0.3"
-libz = "1"
 
 [features]
-static = ["pkg-config/static", 'libz/static']
+static = ["pkg-config/static"]

> embedded targets
 [package]
 name = "embedded"
 
 [target.thumbv7em-none-eabihf.dependencies]
 cortex-m = "0.7"
-
-[target.thumbv7em-none-eabihf.dev-dependencies]
-defmt-test = "0.3"
-
-[target.x86_64-unknown-linux-gnu.dev-dependencies]
-std-test = "1"
 
 [features]
-test = ["defmt-test/all", "cortex-m/all", "std-test/all"]
+test = [ "cortex-m/all"]
"#,
    )
}

#[test]
fn unusual(rt: HostRuntime) -> Result<(), Wrong> {
    changed(
        rt.alloc(),
        r#"
> quoted
 [package]
 name = "quoted"
-
-["dev-dependencies"]
-a = "1"
-
-[ 'dev-dependencies' . "b" ] # b
-version = "1"
-
-  [target . x . dev-dependencies]
-  c = "1"
 [lib]

> renamed
 [package]
 name = "renamed"
 
-[dev-dependencies]
-mine = { package = "theirs", version = "1" }
-
 [features]
-f = ["mine/a", "theirs/a"]
+f = [ "theirs/a"]

> commented
 [package]
 name = "commented"
-# [dev-dependencies]
-# a = "1"
-
-# tests only
-[dev-dependencies] # trailing
-# inside
-b = "1" # of b
 # behind
 [features] # of the library
 default = [] # [

> nested
 [package]
 name = "nested"
 
 [package.metadata]
 dev-dependencies = { a = "1" }
 
 [package.metadata.target.x.dev-dependencies]
 a = "1"
 
 [[package.metadata.list]]
 dev-dependencies = ["a"]
 
 [dependencies]
 dev-dependencies = "1"
 target = "1"

> tests
 [package]
 name = "tests"
 autotests = false
 
 [features]
 # The tests need these:
-test-all = [
-  # of the tests
-  "criterion/html", 'proptest/std',
-  "std",
-  # last
-  "proptest/fork"
-]
+test-all = [
+  "std"
+]
 std = []
-
-[dev-dependencies.criterion]
-version = "0.5"
-default-features = false
-
-[dev-dependencies.proptest]
-version = "1"
"#,
    )
}
