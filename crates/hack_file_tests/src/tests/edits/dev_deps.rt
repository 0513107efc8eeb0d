//! Development dependencies taken out: tables, keys and inline tables.

use crate::tests::edits::on;
use hack_edits::manifest::nothing_left;
use hack_holds::Wrong;

#[test]
fn tables_of_a_package(rt: HostRuntime) -> Result<(), Wrong> {
    on(
        rt.alloc(),
        r#"
            > edit
            |
            > edit [package]\n\n\n\n[dev-dependencies.serde]\n\n\n[dev-dependencies]\n
            | [package]\n
            > edit [package]\n[dependencies]\n[[example]]\n[dev-dependencies.serde]\n[dev-dependencies]
            | [package]\n[dependencies]\n[[example]]\n
            > edit [package]\n[dependencies]\n[[example]]\n[dev-dependencies.serde]\n[dev-dependencies]\n
            | [package]\n[dependencies]\n[[example]]\n
            > edit [dev-dependencies]\nfoo = { features = [] }\nbar = "0.1"\n
            |
            > edit [dev-dependencies.foo]\nfeatures = []\n\n[dev-dependencies]\nbar = { a = [] }\n\n[dependencies]\nbar = { a = [] }\n
            | \n[dependencies]\nbar = { a = [] }\n
            > edit [package]\nfoo = [\n    ['dev-dependencies'],\n    ["dev-dependencies"]\n]\n
            | [package]\nfoo = [\n    ['dev-dependencies'],\n    ["dev-dependencies"]\n]\n
        "#,
    )
}

#[test]
fn tables_of_targets(rt: HostRuntime) -> Result<(), Wrong> {
    on(
        rt.alloc(),
        r#"
            > edit [package]\n\n[target.'cfg(unix)'.dev-dependencies]\n\n[dependencies]\n
            | [package]\n\n[dependencies]\n
            > edit [package]\n\n[target.'cfg(unix)'.dev-dependencies]\nfoo = "0.1"\n\n[target.'cfg(unix)'.dev-dependencies.bar]\n\n[dev-dependencies]\nfoo = "0.1"\n\n[target.'cfg(unix)'.dependencies]\nfoo = "0.1"\n
            | [package]\n\n[target.'cfg(unix)'.dependencies]\nfoo = "0.1"\n
            > edit [package]\n\n[target.'cfg(unix)'.dependencies]\n\n[dev-dependencies]\n
            | [package]\n\n[target.'cfg(unix)'.dependencies]\n
            > edit [package]\n\n[target.'cfg(unix)'.dev-dependencies]\n
            | [package]\n
            > edit [target.x]\ndev-dependencies = { d = "1" }\n
            | [target.x]\n
            > edit [target."cfg(any(a, b = \\"c\\"))".dev-dependencies]\nd = "1"\n[target.x.build-dependencies]\nb = "1"\n
            | [target.x.build-dependencies]\nb = "1"\n
            > edit [target.x.dependencies.dev-dependencies]\nversion = "1"\n[target.x.dev-dependencies]\n
            | [target.x.dependencies.dev-dependencies]\nversion = "1"\n
        "#,
    )
}

#[test]
fn keys_and_inline_tables(rt: HostRuntime) -> Result<(), Wrong> {
    on(
        rt.alloc(),
        r#"
            > edit dev-dependencies = { d = "1" }\ndependencies = { a = "1" }\n
            | dependencies = { a = "1" }\n
            > edit dev-dependencies.d = "1"\ndev-dependencies.e.version = "1"\n[package]\n
            | [package]\n
            > edit target.x.dev-dependencies.d = "1"\ntarget.x.dependencies.a = "1"\n
            | target.x.dependencies.a = "1"\n
            > edit [target]\nx.dev-dependencies = { d = "1" }\nx.dependencies.a = "1"\n
            | [target]\nx.dependencies.a = "1"\n
            > edit "dev-dependencies".d = "1"\n'dev-dependencies' . 'e' = { path = "e" }\n
            |
        "#,
    )
}

#[test]
fn other_bytes(rt: HostRuntime) -> Result<(), Wrong> {
    on(
        rt.alloc(),
        r#"
            > edit \b[package] # p\r\n\r\n\t[ dev-dependencies ] # d\r\n\td\t=\t"1" # e\r\n\r\n# f\r\n[lib]\r\n\r\n# end
            | \b[package] # p\r\n\r\n# f\r\n[lib]\r\n\r\n# end
            > edit [package]\nname = """\n[dev-dependencies]\n"""\n
            | [package]\nname = """\n[dev-dependencies]\n"""\n
            > edit [package]\nname = '''\n[dev-dependencies]\nd = "1"\n'''\n\n# [dev-dependencies]\n\n[dev-dependencies]\nd = """\n[dependencies]\n"""\n\n# [dependencies]\n
            | [package]\nname = '''\n[dev-dependencies]\nd = "1"\n'''\n\n# [dependencies]\n
            > edit a = 'z'   \n\n\n\n[dev-dependencies]\nd = [\n  1, # ]\n]\n\n\n\n[b] \n  c=1.50\n  d=1979-05-27T07:32:00Z\n
            | a = 'z'   \n\n\n\n[b] \n  c=1.50\n  d=1979-05-27T07:32:00Z\n
            > edit [profile.dev-dependencies]\na = 1\n[package.metadata.dev-dependencies]\n
            | [profile.dev-dependencies]\na = 1\n[package.metadata.dev-dependencies]\n
            > edit # only\n\n# comments
            | # only\n\n# comments
        "#,
    )
}

#[test]
fn refused_texts(rt: HostRuntime) -> Result<(), Wrong> {
    nothing_left();
    on(
        rt.alloc(),
        r#"
            > edit [x\n
            | refused: Toml
            > edit [a]\n[a]\n[dev-dependencies]\n
            | refused: Toml
            > edit [target]\nx = { dev-dependencies = {} }\n
            | refused: InlineTarget
            > edit target = { x = { dev-dependencies = {} } }\n
            | refused: InlineTarget
            > edit target.x = { dev-dependencies.d = "1" }\n[dev-dependencies]\n
            | refused: InlineTarget
            > edit features = { a = ["d/f"] }\n[dev-dependencies]\nd = "1"\n
            | refused: ReadBack
            > edit [[target.x]]\na = 1\n[target.x.dev-dependencies]\nd = "1"\n
            | refused: ReadBack
            > edit [[target]]\n[target.x.dev-dependencies]\nd = "1"\n
            | refused: ReadBack
        "#,
    )
}

#[test]
fn inline_targets_without_development_dependencies(rt: HostRuntime) -> Result<(), Wrong> {
    on(
        rt.alloc(),
        r#"
            > edit [target]\nx = { dependencies = { a = "1" } }\n[dev-dependencies]\nd = "1"\n
            | [target]\nx = { dependencies = { a = "1" } }\n
            > edit [target.y]\nz = { dev-dependencies = {} }\n[target.x.dev-dependencies]\n
            | [target.y]\nz = { dev-dependencies = {} }\n
        "#,
    )
}
