//! Texts that several rows and environments have in common. Above each is its name: in rows and
//! environments, and in the texts above it here, a line `+ NAME` stands for the text.

use std::alloc::{AllocError, Global};

static SHARED: [(&str, &str); 14] = [
    // Commands that are called.
    (
        "+ stable's metadata asked",
        "+ metadata asked
| rustup run stable cargo metadata --format-version=1 --no-deps",
    ),
    (
        "+ asked",
        "+ metadata asked
| cargo locate-project",
    ),
    (
        "+ metadata asked",
        "| cargo -vV
| rustup run stable cargo -vV
| cargo metadata --format-version=1 --no-deps",
    ),
    (
        "+ host h asked",
        "| cargo -vV
| rustup run stable cargo -vV
| cargo metadata --format-version=1 --filter-platform h
| cargo locate-project",
    ),
    // The context of the package `p`, with its manifest in the environment `+ the package alone`.
    (
        "+ p in cargo 1.70",
        "| /w by `cargo` 1.70 (1.70) in /w
| at p
| p at /w/Cargo.toml, private: false, 1.60, 10:",
    ),
    (
        "+ p by stable 1.80",
        "| /w by `cargo` 1.70 (1.80) in /w
| at p
| p at /w/Cargo.toml, private: false, 1.60, 10:",
    ),
    // A private package 1.50 by its manifest, which the metadata report as a public one of 1.60.
    (
        "+ as the manifest says",
        "| at p
| p at /w/Cargo.toml, private: true, 1.50, 48:",
    ),
    (
        "+ public as reported",
        "| at p
| p at /w/Cargo.toml, private: false, 1.50, 48:",
    ),
    (
        "+ public and 1.60 as reported",
        "| at p
| p at /w/Cargo.toml, private: false, 1.60, 48:",
    ),
    (
        "+ stable 1.80",
        r"rustup run stable cargo -vV = release: 1.80.0\n",
    ),
    // Cargo 1.70 and the workspaces of `world`.
    (
        "+ the package alone",
        r#"+ single
cargo locate-project = {"root":"/w/Cargo.toml"}
/w/Cargo.toml = [package]\n"#,
    ),
    (
        "+ single",
        "cargo -vV = @own
cargo metadata --format-version=1 --no-deps = @single",
    ),
    (
        "+ rooted",
        "cargo -vV = @own
cargo metadata --format-version=1 --no-deps = @rooted",
    ),
    (
        "+ virtual",
        "cargo -vV = @own
cargo metadata --format-version=1 --no-deps = @virtual",
    ),
];

/// The text with the shared ones in their places.
pub fn with_shared(alloc: Global, text: &str) -> Result<String, AllocError> {
    let mut text = String::from_str(alloc, text)?;
    for (name, lines) in &SHARED {
        text = text.as_str().replace(alloc, name, lines)?;
    }
    Ok(text)
}
