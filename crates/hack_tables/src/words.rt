//! The command line of `cargo hack`: its outcome, and the fields that it gives.

use crate::answers::{Found, yes};
use crate::shown::{args_text, notices_text};
use crate::table::{Group, words_of};
use hack_words::cli::{Args, CliFault, Env, Help, Parsed, wants_rustup};
use hack_words::rustup::Rustup;
use hack_words::term::Notice;
use std::alloc::{AllocError, Global};

type Answer = Result<(Parsed, Vec<Notice>), CliFault>;

/// `words`: the outcome of a command line with its notices, or the error. `fields`: the fields that
/// differ from those of a command line without options. `wants rustup`: whether rustup's version is
/// needed. `environment`: what is read from variables.
pub(crate) fn answer(alloc: Global, group: &Group, words: &[String]) -> Found {
    let text = match group.kind.as_str() {
        "words" => answer_text(alloc, parsed(alloc, group, words)?)?,
        "fields" => fields_text(alloc, parsed(alloc, group, words)?)?,
        "wants rustup" => yes(alloc, wants_rustup(words))?,
        "environment" => env_text(alloc, words)?,
        _ => return Ok(None),
    };
    Ok(Some(text))
}

/// An environment in which at most the colouring for cargo and the variable of GitHub Actions are
/// set.
fn env_of(alloc: Global, color: Option<&str>, github_actions: bool) -> Result<Env, AllocError> {
    let term_color = match color {
        Some(color) => Some(String::from_str(alloc, color)?),
        None => None,
    };
    Ok(Env {
        term_color,
        github_actions,
        deny_warnings: false,
        cargo: String::from_str(alloc, "cargo")?,
        rustup: String::from_str(alloc, "rustup")?,
        current_dir: String::new(alloc),
        by_guard: false,
    })
}

/// The answer to the command line, in the group's environment and with its rustup.
fn parsed(alloc: Global, group: &Group, words: &[String]) -> Result<Answer, AllocError> {
    let env = env_of(alloc, group.setting("color"), group.has("github"))?;
    Ok(Args::parse(alloc, words, &env, rustup_of(alloc, group)?))
}

/// The fields that the arguments on a line give, or their error, as in rows of `fields`: in an
/// empty environment, with a rustup that is new enough.
pub fn fields(alloc: Global, line: &str) -> Result<String, AllocError> {
    let words = words_of(alloc, line)?;
    let env = env_of(alloc, None, false)?;
    fields_text(alloc, Args::parse(alloc, &words, &env, Rustup::Known(26)))
}

/// The group's rustup: with this minor version, unknown for this reason, or one that is new enough.
fn rustup_of(alloc: Global, group: &Group) -> Result<Rustup, AllocError> {
    if let Some(reason) = group.setting("unknown-rustup") {
        return Ok(Rustup::Unknown(String::from_str(alloc, reason)?));
    }
    let minor = group.setting("rustup").and_then(|minor| minor.parse().ok());
    Ok(Rustup::Known(minor.unwrap_or(26)))
}

/// The text to print after `print: `, `short help`, `long help`, `list` or `args`.
fn parsed_text(alloc: Global, parsed: Parsed) -> Result<String, AllocError> {
    match parsed {
        Parsed::Print(text) => printed_text(alloc, text.as_str()),
        Parsed::List => String::from_str(alloc, "list"),
        Parsed::Args(_) => String::from_str(alloc, "args"),
    }
}

/// The text to print, or which help it is.
fn printed_text(alloc: Global, text: &str) -> Result<String, AllocError> {
    let short = format!(in alloc; "{}", Help::short())?;
    if text == short.as_str() {
        return String::from_str(alloc, "short help");
    }
    let long = format!(in alloc; "{}", Help::long())?;
    if text == long.as_str() {
        return String::from_str(alloc, "long help");
    }
    format!(in alloc; "print: {text}")
}

/// The error or the outcome, followed by the notices, each after a line feed.
fn answer_text(alloc: Global, answer: Answer) -> Result<String, AllocError> {
    let (parsed, notices) = match answer {
        Ok(answer) => answer,
        Err(fault) => return format!(in alloc; "{fault}"),
    };
    let mut text = parsed_text(alloc, parsed)?;
    text.push_str(notices_text(alloc, &notices)?.as_str())?;
    Ok(text)
}

/// The fields that differ from those of a command line without options; where there are no
/// arguments, the outcome.
fn fields_text(alloc: Global, answer: Answer) -> Result<String, AllocError> {
    let (parsed, _) = match answer {
        Ok(answer) => answer,
        Err(fault) => return format!(in alloc; "{fault}"),
    };
    match parsed {
        Parsed::Args(args) => args_text(alloc, &args),
        parsed => parsed_text(alloc, parsed),
    }
}

/// The fields of the environment that these variables make, each given as `NAME=value`.
fn env_text(alloc: Global, vars: &[String]) -> Result<String, AllocError> {
    let mut pairs = Vec::new(alloc);
    for var in vars {
        let (name, value) = var.as_str().split_once('=').unwrap_or(("", ""));
        let name = String::from_str(alloc, name)?;
        pairs.push((name, String::from_str(alloc, value)?))?;
    }
    let env = Env::new(alloc, &pairs, String::from_str(alloc, "/größe")?)?;
    let color = env
        .term_color
        .as_ref()
        .map_or("none", |color| color.as_str());
    format!(in alloc;
        "{color}; {}; {}; {}; {}; {}; {}",
        env.github_actions, env.deny_warnings, env.cargo, env.rustup, env.current_dir, env.by_guard
    )
}
