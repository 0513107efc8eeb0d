//! The table of options, and the whole help. `help: short` and `help: long` ask for the help, `all
//! by name` how many of all options are found by their own name. `long: NAME` and `letter: LETTER`
//! ask which option is found, `row: NAME` for its row, `means: NAME` for what it means, and `same:
//! NAME OTHER` whether both are the same option.

use crate::asks::{halves, on};
use crate::checks::checked;
use crate::help_texts::help_rows;
use hack_holds::Wrong;
use hack_options::{ALL, Help, Opt, long, short};
use std::alloc::{AllocError, Global};

pub fn help_text(alloc: Global, text: &str) -> Result<String, AllocError> {
    let help = match text {
        "short" => Help::short(),
        _ => Help::long(),
    };
    help.to_string(alloc)
}

pub fn all_by_name(alloc: Global) -> Result<String, AllocError> {
    let mut count = 0u64;
    for option in &ALL {
        if long(option.row().name) == Some(*option) {
            count = count.saturating_add(1);
        }
    }
    count.to_string(alloc)
}

pub fn by_name(alloc: Global, name: &str) -> Result<String, AllocError> {
    shown(alloc, long(name))
}

pub fn by_letter(alloc: Global, text: &str) -> Result<String, AllocError> {
    match text.chars().next() {
        Some(letter) => shown(alloc, short(letter)),
        None => shown(alloc, None),
    }
}

pub fn means(alloc: Global, name: &str) -> Result<String, AllocError> {
    match long(name) {
        Some(option) => shown(alloc, Some(option.means())),
        None => shown(alloc, None),
    }
}

fn shown(alloc: Global, option: Option<Opt>) -> Result<String, AllocError> {
    match option {
        Some(option) => format!(in alloc; "{option:?}"),
        None => String::from_str(alloc, "none"),
    }
}

pub fn row(alloc: Global, name: &str) -> Result<String, AllocError> {
    match long(name) {
        Some(option) => row_of(alloc, option),
        None => String::from_str(alloc, "none"),
    }
}

fn row_of(alloc: Global, option: Opt) -> Result<String, AllocError> {
    let row = option.row();
    let often = if row.once { "once" } else { "often" };
    format!(in alloc; "{option:?} {} {:?} {often}", row.name, row.kind)
}

pub fn same(alloc: Global, text: &str) -> Result<String, AllocError> {
    let (name, other) = halves(text, " ");
    let text = match (long(name), long(other)) {
        (Some(option), Some(other)) if option.is(other) => "yes",
        (Some(_), Some(_)) => "no",
        _ => "none",
    };
    String::from_str(alloc, text)
}

#[test]
fn help(rt: HostRuntime) -> Result<(), Wrong> {
    let rows = help_rows(rt.alloc())?;
    on(rt.alloc(), rows.as_str())
}

#[test]
fn options_by_name(rt: HostRuntime) -> Result<(), Wrong> {
    on(
        rt.alloc(),
        "
            > all by name
            | 52
            > long:
            | none
            > long: al
            | none
            > long: alls
            | none
            > long: All
            | none
            > long: -all
            | none
            > long: all=
            | none
            > long: workspace-behavior=cargo
            | none
            > long: no-dev-dep
            | none
            > long: m
            | none
            > long: quiet
            | none
        ",
    )
}

#[test]
fn options_by_letter(rt: HostRuntime) -> Result<(), Wrong> {
    on(
        rt.alloc(),
        "
            > letter: p
            | Package
            > letter: m
            | ManifestPath
            > letter: F
            | Features
            > letter: v
            | Verbose
            > letter: h
            | Help
            > letter: V
            | Version
            > letter: P
            | none
            > letter: f
            | none
            > letter: M
            | none
            > letter: H
            | none
            > letter: q
            | none
            > letter: n
            | none
            > letter: -
            | none
            > letter: é
            | none
        ",
    )
}

#[test]
fn rows(rt: HostRuntime) -> Result<(), Wrong> {
    on(
        rt.alloc(),
        "
            > row: all
            | All all Flag once
            > row: features
            | Features features Names often
            > row: optional-deps
            | OptionalDeps optional-deps OptionalNames once
            > row: group-features
            | GroupFeatures group-features Value often
            > row: partition-kind
            | PartitionKind partition-kind Value once
            > row: strength
            | Strength strength Value once
            > row: restore
            | Restore restore Flag once
            > row: package-rules
            | PackageRules package-rules Flag once
            > row: parallel
            | Parallel parallel Value once
            > row: find-rust-version
            | FindRustVersion find-rust-version Flag once
            > row: find-conflicts
            | FindConflicts find-conflicts Flag once
            > row: most-runs
            | MostRuns most-runs Value once
            > row: workspace-behavior
            | WorkspaceBehavior workspace-behavior Refused often
            > row: help
            | Help help Help often
            > row: version
            | Version version Version often
        ",
    )
}

#[test]
fn options_in_messages(rt: HostRuntime) -> Result<(), Wrong> {
    checked(
        rt.alloc(),
        "[named] How messages name an option, alone and with its alias, and whether it is one.
> package
| --package|--package|no
> all
| --all|--all|yes
> skip
| --skip|--skip|yes
> exclude-features
| --exclude-features|--exclude-features (--skip)|no
> workspace-behavior
| --workspace-behavior=cargo|--workspace-behavior=cargo|no
> include-deps-features
| --include-deps-features|--include-deps-features|no
> strength
| --strength|--strength|no
> restore
| --restore|--restore|no
> package-rules
| --package-rules|--package-rules|no
> parallel
| --parallel|--parallel|no
> find-rust-version
| --find-rust-version|--find-rust-version|no
> find-conflicts
| --find-conflicts|--find-conflicts|no
> most-runs
| --most-runs|--most-runs|no
",
        "0 of 13 are wrong",
    )
}

#[test]
fn aliases(rt: HostRuntime) -> Result<(), Wrong> {
    on(
        rt.alloc(),
        "
            > means: all
            | Workspace
            > means: skip
            | ExcludeFeatures
            > means: color
            | Color
            > same: color color
            | yes
            > same: all workspace
            | no
        ",
    )
}
