//! What a call reads from its environment: variables, and the current folder.

ghost use Rattle.std.specs.Prelude.{◌≡◌, IfOk, string_bytes};
ghost use Rattle.hack_base.specs.Names.{optional_text_ref};
ghost use Rattle.std.specs.Option.{unwrap_or};
ghost use Rattle.hack_words.specs.EnvView.{IsEnv, variable as variable_named, is_set as set};
ghost use Rattle.hack_words.specs.EnvView.{vars_of};

use hack_base::copies::copy_of;
use std::alloc::{AllocError, Global};

/// What a call reads from its environment.
#[derive(Debug, Drop)]
pub struct Env {
    /// `CARGO_TERM_COLOR`, cargo's own colour setting.
    pub term_color: Option<String>,
    /// Whether `GITHUB_ACTIONS` is set, as GitHub Actions does.
    pub github_actions: bool,
    /// Whether `CARGO_HACK_DENY_WARNINGS` is set, so that a warning makes the call fail.
    pub deny_warnings: bool,
    /// The program to run as cargo: `CARGO_HACK_CARGO_SRC`, else `CARGO`, else `cargo`.
    pub cargo: String,
    /// The program to run as rustup: `CARGO_HACK_RUSTUP`, else `rustup`.
    pub rustup: String,
    /// The current folder; empty where it isn't known.
    pub current_dir: String,
    /// Whether `CARGO_HACK_GUARD` is set: the call was started by the guard of another call.
    pub by_guard: bool,
}

/// The value of the first variable of this name.
fn variable<'a>(vars: &'a [(String, String)], name: &str) -> Option<&'a String>
    ensures { optional_text_ref result
        ≡ variable_named name.now (vars_of vars.now) }
{
    for (key, value) in vars {
        if key.as_str() == name {
            return Some(value);
        }
    }
    None
}

fn is_set(vars: &[(String, String)], name: &str) -> bool
    ensures { result ≡ set name.now (vars_of vars.now) }
{
    variable(vars, name).is_some()
}

fn value_or(alloc: Global, value: Option<&String>, other: &str) -> Result<String, AllocError>
    ensures { IfOk result (λ text. string_bytes text
        ≡ unwrap_or (optional_text_ref value.entry) other.now) }
{
    match value {
        Some(value) => value.clone(),
        None => String::from_str(alloc, other),
    }
}

impl Env {
    /// Reads the variables, each a name and its value, and the current folder, for a call that no
    /// guard started.
    pub fn new(
        alloc: Global,
        vars: &[(String, String)],
        current_dir: String,
    ) -> Result<Env, AllocError>
        ensures { IfOk result (IsEnv (vars_of vars.now) (string_bytes current_dir)) }
    {
        let cargo = variable(vars, "CARGO_HACK_CARGO_SRC").or(variable(vars, "CARGO"));
        Ok(Env {
            term_color: copy_of(variable(vars, "CARGO_TERM_COLOR"))?,
            github_actions: is_set(vars, "GITHUB_ACTIONS"),
            deny_warnings: is_set(vars, "CARGO_HACK_DENY_WARNINGS"),
            cargo: value_or(alloc, cargo, "cargo")?,
            rustup: value_or(alloc, variable(vars, "CARGO_HACK_RUSTUP"), "rustup")?,
            current_dir,
            by_guard: false,
        })
    }
}
