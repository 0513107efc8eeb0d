//! Toolchains that rustup adds: `toolchain` with a name and targets answers the calls, and the
//! error or `ok`. Output is discarded here: whole calls show it.

use crate::tests::asked::on;
use crate::tests::scene::{Scene, scene_of, words_of};
use crate::tests::shown::push_sections;
use crate::tests::world::given;
use crate::tests::worlds::PLAIN;
use hack_holds::Wrong;
use hack_process::process::ProcessFault;
use hack_session::rustup::install_toolchain;
use hack_session::session::Screen;
use hack_term::term::LogGroup;
use std::alloc::{AllocError, Global};
use std::io;

/// Installs a toolchain for these targets.
fn install(
    alloc: Global,
    scene: &mut Scene,
    name: &str,
    targets: &[String],
    is_told: bool,
) -> Result<(), ProcessFault> {
    let mut screen = Screen {
        term: &scene.term,
        out: &mut io::sink(),
        err: &mut io::sink(),
        log_group: LogGroup::None,
    };
    install_toolchain(
        alloc,
        &mut scene.caller,
        &mut screen,
        "rustup",
        name,
        targets,
        is_told,
        "/w",
    )
}

fn push_end(
    text: &mut String,
    alloc: Global,
    end: Result<(), ProcessFault>,
) -> Result<(), AllocError> {
    match end {
        Ok(()) => text.push_str("ok"),
        Err(fault) => text.push_str(format!(in alloc; "{fault}")?.as_str()),
    }
}

pub fn toolchain(alloc: Global, world: &str, words: &str) -> Result<String, AllocError> {
    let (name, targets) = words.split_once(' ').unwrap_or((words, ""));
    let targets = words_of(alloc, targets)?;
    let mut scene = scene_of(alloc, world, "")?;
    let is_told = given(world, "tell") != "nothing";
    let end = install(alloc, &mut scene, name, targets.as_slice(), is_told);
    let mut text = String::new(alloc);
    push_sections(&mut text, alloc, &scene, "calls")?;
    push_end(&mut text, alloc, end)?;
    Ok(text)
}

#[test]
fn toolchains_that_are_tried(rt: HostRuntime) -> Result<(), Wrong> {
    on(
        rt.alloc(),
        PLAIN,
        r#"
            > toolchain: 1.60
            | rustup run 1.60 cargo --version
            | ok

            # One `+` is dropped.
            > toolchain: +1.60
            | rustup run 1.60 cargo --version
            | ok
            > toolchain: ++1.60
            | rustup run +1.60 cargo --version
            | ok

            > toolchain: 1.60; fails 1 rustup run 1.60 cargo --version
            | rustup run 1.60 cargo --version
            | rustup toolchain add 1.60 --no-self-update
            | ok

            > toolchain: 1.60; fails 1 rustup run 1.60 cargo --version; tell nothing
            | rustup run 1.60 cargo --version
            | rustup toolchain add 1.60 --no-self-update
            | ok

            > toolchain: 1.60; fails 1 rustup run 1.60 cargo --version; fails 1 rustup toolchain add 1.60 --no-self-update
            | rustup run 1.60 cargo --version
            | rustup toolchain add 1.60 --no-self-update
            | process didn't exit successfully: `rustup toolchain add 1.60 --no-self-update` (exit status: 1)
        "#,
    )
}

// They are added with one command.
#[test]
fn toolchains_with_targets(rt: HostRuntime) -> Result<(), Wrong> {
    on(
        rt.alloc(),
        PLAIN,
        r#"
            > toolchain: +1.60 x y
            | rustup toolchain add 1.60 --no-self-update --target x,y
            | ok

            > toolchain: 1.60 x; missing rustup toolchain add 1.60 --no-self-update --target x; tell nothing
            | rustup toolchain add 1.60 --no-self-update --target x
            | could not execute process `rustup toolchain add 1.60 --no-self-update --target x` (never executed)
        "#,
    )
}
