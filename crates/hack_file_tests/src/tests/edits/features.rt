//! Texts of features that name development dependencies. `features ..` are those after the tables
//! of a package: d1 is a normal and a development dependency, d2 only for development, d3 of a
//! target, d4 for development and only for a target, and d5 for development and for a build script.
//! The answer is what an edit leaves of them.

use crate::tests::edits::{edited, on};
use hack_holds::Wrong;
use std::alloc::{AllocError, Global};

static TABLES: &str =
    r#"[package]\n[dependencies]\nd1 = "1"\n[target.'cfg(unix)'.dependencies]\nd3 = "1"\n[build-dependencies]\nd5 = "1"\n"#;

static DEV_TABLES: &str =
    r#"[dev-dependencies]\nd1 = "1"\nd2 = "1"\nd5 = "1"\n[target.'cfg(unix)'.dev-dependencies]\nd4 = "1"\nd3 = "1"\n"#;

/// The remaining features after the tables; or the whole text where the tables aren't the expected
/// ones.
pub fn thinned(alloc: Global, features: &str) -> Result<String, AllocError> {
    let shown = format!(in alloc; "{TABLES}{DEV_TABLES}[features]\\n{features}")?;
    let answer = edited(alloc, shown.as_str())?;
    let kept = answer.as_str().strip_prefix(TABLES).unwrap_or("");
    match kept.strip_prefix(r"[features]\n") {
        Some(features) => String::from_str(alloc, features),
        None => Ok(answer),
    }
}

#[test]
fn texts_that_go(rt: HostRuntime) -> Result<(), Wrong> {
    on(
        rt.alloc(),
        r#"
            > features f = ["d1/f", "d2/f", "d4/f"]\n
            | f = ["d1/f"]\n
            > features f = ["d3/f", "d2/f", "d1/f"]\n
            | f = ["d3/f", "d1/f"]\n
            > features f = ["d2/f"]\n
            | f = []\n
            > features f = ["d5/f", "d2/f", "d2", "dep:d2"]\n
            | f = ["d5/f", "d2", "dep:d2"]\n
            > features f = ["d2/a/b", "d2?/f", "d6/f"]\n
            | f = [ "d2?/f", "d6/f"]\n
            > features f = ['g', "d2/f", 'd4/f']\ng = []\n
            | f = ['g']\ng = []\n
            > features f = ["d2/f", "d1/f"]\n
            | f = [ "d1/f"]\n
        "#,
    )
}

#[test]
fn arrays_in_all_forms(rt: HostRuntime) -> Result<(), Wrong> {
    on(
        rt.alloc(),
        r#"
            > features f = [\n  "d2/f", # gone, with [brackets]\n  # a, b\n  "d1/f", # kept ]\n  'd4/f' # last, ]\n] # x ]\n
            | f = [ # gone, with [brackets]\n  # a, b\n  "d1/f" # last, ]\n] # x ]\n
            > features f = ["x,d2/f", "d2/f", """d4/\ng,]"""]\n
            | f = ["x,d2/f"]\n
            > features # f = [1]\n"f[" = ["d2/f",]\n
            | # f = [1]\n"f[" = []\n
            > features f = ["a", ["d2/f"], { b = [1, 2] }, "d2/f", 'z']\n
            | f = ["a", ["d2/f"], { b = [1, 2] }, 'z']\n
            > features f = [\r\n\t"d1/f",\r\n\t"d2/f",\r\n]\r\n
            | f = [\r\n\t"d1/f",\r\n]\r\n
            > features f = ["\\u0064\\u0032/f" , 'd1/f' , ]\n
            | f = [ 'd1/f' , ]\n
            > features f = ["d1/f" , "d2/f" ] # c\n
            | f = ["d1/f"  ] # c\n
        "#,
    )
}

#[test]
fn dotted_features(rt: HostRuntime) -> Result<(), Wrong> {
    on(
        rt.alloc(),
        r#"
            > edit features.f = ["d/f", "a/f"]\n[dev-dependencies]\nd = "1"\n
            | features.f = [ "a/f"]\n
            > edit features."f.g" = ["d/f"] # f\n[dev-dependencies.d]\nversion = "1"\n
            | features."f.g" = [] # f\n
            > edit [features]\nf = 1\ng = "d/f"\n[dev-dependencies]\nd = "1"\n
            | [features]\nf = 1\ng = "d/f"\n
        "#,
    )
}
