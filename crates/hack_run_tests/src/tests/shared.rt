//! Texts that several rows and worlds have in common. Above each is its name: in rows and worlds,
//! and in the texts above it here, a line `+ NAME` stands for the text.

use std::alloc::{AllocError, Global};

static SHARED: [(&str, &str); 20] = [
    // Arguments.
    (
        "+ no subcommand",
        "| err
| error: no subcommand or valid flag specified
|
| USAGE:
|     cargo hack [OPTIONS] [SUBCOMMAND]
|
| For more information try --help
| status 1",
    ),
    // Manifests and their edits.
    (
        "+ no-dev-deps told",
        "| err
| info: --no-dev-deps modifies real `Cargo.toml` while cargo-hack is running and restores it when finished",
    ),
    (
        "+ no-private told",
        "| err
| info: --no-private modifies real `Cargo.toml` while cargo-hack is running and restores it when finished",
    ),
    (
        "+ root edited",
        r#"| /w/Cargo.toml:
| [package]
| name = "p"
|
| [features]
| f = []"#,
    ),
    (
        "+ root as it was",
        "| /w/Cargo.toml:
+ root manifest
| /w/Cargo.lock:
| # lock",
    ),
    (
        "+ root manifest",
        r#"| [package]
| name = "p"
|
| [features]
| f = ["d/g"]
|
| [dev-dependencies]
| d = "1""#,
    ),
    (
        "+ p and a private q",
        "members p /w/p/Cargo.toml, q! /w/q/Cargo.toml
file: /w/p/Cargo.toml
| [package]
file: /w/q/Cargo.toml
| [package]",
    ),
    (
        "+ twenty features",
        r#"members p /w/Cargo.toml
features a b c d e f g h i j k l m n o p q r s t
file: /w/Cargo.toml
| [package]
| name = "p"
| [features]
+ features"#,
    ),
    // Preparations of toolchains.
    (
        "+ toolchain 1.60 isn't added",
        "+ asked after rustup
| rustup run 1.60 cargo --version
| rustup toolchain add 1.60 --no-self-update
| err
| info: running `rustup toolchain add 1.60 --no-self-update`
| error: process didn't exit successfully: `rustup toolchain add 1.60 --no-self-update` (exit status: 1)
| status 1",
    ),
    (
        "+ checked by 1.60",
        "+ asked after rustup
| rustup run 1.60 cargo --version
| rustup run 1.60 cargo check --manifest-path Cargo.toml",
    ),
    (
        "+ stable is 1.90",
        "| rustup run stable cargo -vV
| rustup run 1.90 cargo --version
| rustup run 1.90 cargo check --manifest-path Cargo.toml
| err
| info: running `rustup run 1.90 cargo check` on p (1/1)
| status 0",
    ),
    (
        "+ asked after rustup",
        "| rustup --version
| cargo -vV
| rustup run stable cargo -vV
| cargo metadata --format-version=1 --no-deps
| cargo locate-project",
    ),
    // Runs of the package.
    (
        "+ three runs, of which a fails",
        "| asked
| cargo check --manifest-path Cargo.toml --all-features
| cargo check --manifest-path Cargo.toml --no-default-features --features a
| cargo check --manifest-path Cargo.toml --no-default-features --features b
| err
| info: running `cargo check --all-features` on p (1/3)
|
| info: running `cargo check --no-default-features --features a` on p (2/3)
| error: process didn't exit successfully: `cargo check --manifest-path Cargo.toml --no-default-features --features a` (exit status: 101)
|
| info: running `cargo check --no-default-features --features b` on p (3/3)",
    ),
    (
        "+ two runs up to a",
        "| asked
| cargo check --manifest-path Cargo.toml --all-features
| cargo check --manifest-path Cargo.toml --no-default-features --features a
| err
| info: running `cargo check --all-features` on p (1/3)
|
| info: running `cargo check --no-default-features --features a` on p (2/3)",
    ),
    (
        "+ search for a,b",
        "| asked
| cargo check --manifest-path Cargo.toml --no-default-features --features a,b
| cargo check --manifest-path Cargo.toml --no-default-features
| cargo check --manifest-path Cargo.toml --no-default-features --features b
| cargo check --manifest-path Cargo.toml --no-default-features --features a
| err
| info: running `cargo check --no-default-features --features a,b` on p (1)
|
| info: running `cargo check --no-default-features` on p (2)
|
| info: running `cargo check --no-default-features --features b` on p (3)
|
| info: running `cargo check --no-default-features --features a` on p (4)
| error: in p these features fail together, and no part of them that may be chosen fails:
|     a,b
| info: in p each other allowed set lies inside one of 2 sets that passed",
    ),
    (
        "+ report of a",
        "| failed to run 1 commands
|
| failed commands:
|     p:
|         `cargo check --manifest-path Cargo.toml --no-default-features --features a`",
    ),
    (
        "+ second piece by blocks",
        "| asked
| cargo check --manifest-path Cargo.toml --no-default-features --features a
| cargo check --manifest-path Cargo.toml --no-default-features --features d
| err
| info: skipping `cargo check --all-features` on p (1/4)
|
| info: skipping `cargo check --no-default-features` on p (2/4)
|
| info: running `cargo check --no-default-features --features a` on p (3/4)
|
| info: running `cargo check --no-default-features --features d` on p (4/4)",
    ),
    (
        "+ second of two versions",
        "| rustup run 1.60 cargo --version
| rustup run 1.61 cargo --version
| rustup run 1.61 cargo check --manifest-path Cargo.toml
| err
| info: skipping `rustup run 1.60 cargo check` on p (1/2)
|
| info: running `rustup run 1.61 cargo check` on p (2/2)",
    ),
    (
        "+ y isn't a member",
        "| asked
| cargo check --manifest-path Cargo.toml
| err
| warning: excluded package(s) `y` not found in workspace `/w`
| info: running `cargo check` on p (1/1)",
    ),
    (
        "+ second piece by turns",
        "| asked
| cargo check --manifest-path Cargo.toml --no-default-features
| err
| info: skipping `cargo check --all-features` on p (1/4)
|
| info: running `cargo check --no-default-features` on p (2/4)
|
| info: skipping `cargo check --no-default-features --features a` on p (3/4)
|
| info: skipping `cargo check --no-default-features --features d` on p (4/4)",
    ),
];

/// The rows, or the world, with the shared texts in their places.
pub fn spelled_out(alloc: Global, text: &str) -> Result<String, AllocError> {
    let mut whole = String::from_str(alloc, text)?;
    for shared in &SHARED {
        let (name, lines) = *shared;
        whole = whole.as_str().replace(alloc, name, lines)?;
    }
    Ok(whole)
}
