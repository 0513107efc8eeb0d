//! How a command line asks for lines to be coloured, also where it is refused.

ghost use Rattle.std.specs.Prelude.{◌≡◌, ◌≢◌, IfErr, IfOk, MatchOption, false};
ghost use Rattle.hack_base.specs.Names.{names_of, optional_text, optional_text_ref};
ghost use Rattle.hack_rules.specs.AskedFields.{coloring_asked as asked_by};
ghost use Rattle.hack_rules.specs.CliFaults.{fault_of};
ghost use Rattle.hack_rules.specs.Uses.{views};
ghost use Rattle.hack_words.specs.AskedColoring.{AsksColoring};

use crate::cli::env::Env;
use crate::cli::parse::cut;
use crate::cli::start::Start;
use hack_options::Opt;
use hack_rules::fault::CliFault;
use hack_rules::uses::{Cuts, Use, value};
use hack_term::term::Coloring;
use std::alloc::{AllocError, Global};

/// The colouring that these arguments ask for, else the environment. It is that of errors too, of
/// all rules behind the one on colours. `Auto` where an earlier rule is broken or that one, and where
/// the arguments ask for a text.
pub fn coloring_asked(alloc: Global, words: &[String], env: &Env) -> Result<Coloring, AllocError>
    ensures { IfOk result (AsksColoring (optional_text env.now.term_color) (names_of words.now)) }
{
    match coloring_of(alloc, words, env) {
        Ok(coloring) => Ok(coloring),
        Err(fault) => {
            if is_memory(&fault) {
                return Err(AllocError);
            }
            Ok(Coloring::Auto)
        }
    }
}

fn is_memory(fault: &CliFault) -> bool
    ensures { result ≡ false → fault.now ≢ CliFault.Memory }
{
    match fault {
        CliFault::Memory => true,
        _ => false,
    }
}

/// The colouring that is asked for, or the error of a rule that is before the one on colours.
fn coloring_of(alloc: Global, words: &[String], env: &Env) -> Result<Coloring, CliFault>
    ensures ok { IfOk result
        (AsksColoring (optional_text env.now.term_color) (names_of words.now)) }
    ensures err { IfErr result (λ e. MatchOption (fault_of e) (e ≡ CliFault.Memory)
        (λ _. AsksColoring (optional_text env.now.term_color) (names_of words.now) Coloring.Auto)) }
{
    let Start { words: front, .. } = Start::of(alloc, words)?;
    match cut(alloc, front)? {
        Cuts::Uses(uses) => Ok(coloring_by(env.term_color.as_ref(), uses.as_slice())),
        Cuts::Asks(_) => Ok(Coloring::Auto),
    }
}

/// The colouring that uses of options ask for, else the environment.
fn coloring_by(term_color: Option<&String>, uses: &[Use]) -> Coloring
    ensures { result ≡ asked_by (optional_text_ref term_color.entry) (views uses.now) }
{
    match value(Opt::Color, uses).or(term_color) {
        Some(text) => Coloring::parse(text.as_str()).unwrap_or(Coloring::Auto),
        None => Coloring::Auto,
    }
}
