//! Options as they were written, and names as features. `behavior: true` asks who handles a
//! workspace that is left to cargo. `flag: long NAME`, `short LETTER` and `value WORD` ask for the
//! option of an item, and for the item that the option gives back. `features: VALUE` asks for the
//! features that one `--features` names.

use crate::asks::{halves, list, on, push_line};
use hack_features::Feature;
use hack_holds::Wrong;
use hack_lexopt::Arg;
use hack_options::Opt;
use hack_rules::named::{names, normals};
use hack_rules::uses::{Cuts, OwnedFlag, Use, WorkspaceBehavior, all_uses};
use std::alloc::{AllocError, Global};

pub fn behavior(alloc: Global, text: &str) -> Result<String, AllocError> {
    let name = match WorkspaceBehavior::new(text == "true") {
        WorkspaceBehavior::Cargo => "Cargo",
        WorkspaceBehavior::Default => "Default",
    };
    String::from_str(alloc, name)
}

pub fn flag(alloc: Global, text: &str) -> Result<String, AllocError> {
    match OwnedFlag::new(alloc, arg_of(text))? {
        Some(flag) => flag_text(alloc, &flag),
        None => String::from_str(alloc, "none"),
    }
}

fn arg_of(text: &str) -> Arg<'_> {
    let (kind, name) = halves(text, " ");
    match kind {
        "long" => Arg::Long(name),
        "short" => Arg::Short(name.chars().next().unwrap_or(' ')),
        _ => Arg::Value(name),
    }
}

fn flag_text(alloc: Global, flag: &OwnedFlag) -> Result<String, AllocError> {
    let arg = flag.as_arg();
    let kind = match arg {
        Arg::Long(_) => "long",
        Arg::Short(_) => "short",
        Arg::Value(_) => "value",
    };
    format!(in alloc; "{flag}, {kind} {arg}")
}

pub fn features(alloc: Global, value: &str) -> Result<String, AllocError> {
    let mut words = list(alloc, "--features")?;
    words.push(String::from_str(alloc, value)?)?;
    match all_uses(alloc, words) {
        Ok(Cuts::Uses(uses)) => features_of(alloc, &uses),
        _ => String::from_str(alloc, "no uses"),
    }
}

fn features_of(alloc: Global, uses: &[Use]) -> Result<String, AllocError> {
    let names = names(alloc, Opt::Features, uses)?;
    let mut text = String::new(alloc);
    for feature in normals(alloc, &names)? {
        push_line(&mut text, kind_of(&feature))?;
        text.push_str(feature.name())?;
    }
    Ok(text)
}

fn kind_of(feature: &Feature) -> &'static str {
    match feature {
        Feature::Normal { .. } => "normal ",
        Feature::Group { .. } => "group ",
        Feature::Path { .. } => "path ",
    }
}

#[test]
fn who_handles_a_workspace(rt: HostRuntime) -> Result<(), Wrong> {
    on(
        rt.alloc(),
        "
            > behavior: true
            | Cargo
            > behavior: false
            | Default
        ",
    )
}

#[test]
fn flags_outlive_their_cuts(rt: HostRuntime) -> Result<(), Wrong> {
    on(
        rt.alloc(),
        "
            > flag: long locked
            | --locked, long --locked
            > flag: long größe
            | --größe, long --größe
            > flag: short v
            | -v, short -v
            > flag: value check
            | none
        ",
    )
}

#[test]
fn options_as_written(rt: HostRuntime) -> Result<(), Wrong> {
    on(
        rt.alloc(),
        "
            > flag: long größe
            | --größe, long --größe
            > flag: long
            | --, long --
            > flag: short é
            | -é, short -é
            > flag: value check
            | none
        ",
    )
}

#[test]
fn names_are_features(rt: HostRuntime) -> Result<(), Wrong> {
    on(
        rt.alloc(),
        "
            > features: a,b c
            | normal a
            | normal b c
        ",
    )
}
