//! Parses arguments into uses of options, one after the other.

ghost use Rattle.std.specs.Prelude.{map, string_bytes};
ghost use Rattle.hack_lexopt.specs.Parsers.{left_in};
ghost use Rattle.hack_rules.specs.UseReading.{GivesUses, GivesNoOther, read_of};
ghost use Rattle.hack_rules.specs.Internal.{ReturnsStep};
ghost use Rattle.hack_rules.specs.Uses.{views};

use crate::uses::fault::{CutFault, OwnedFlag};
use crate::uses::known::{cut_known, cut_unknown, other_name};
use hack_lexopt::{Arg, Next, Parser};
use hack_options::{Opt, long, short};
use std::alloc::Global;

/// The text that the arguments ask to be printed.
#[derive(Clone, Copy, Debug, PartialEq, Eq)]
pub enum Print {
    ShortHelp,
    LongHelp,
    Version,
}

/// One item, or an option with its value.
#[derive(Debug, Drop)]
pub enum Use {
    /// An option of the table. `option` is never an alias but what it means; `flag` is what was
    /// written.
    Known {
        option: Opt,
        flag: OwnedFlag,
        value: Option<String>,
    },
    /// Another option, and the rest of its argument.
    Unknown {
        flag: OwnedFlag,
        value: Option<String>,
    },
    /// An argument that no option takes.
    Word(String),
}

impl Use {
    ghost use Rattle.std.specs.Prelude.{◌≡◌};
    ghost use Rattle.hack_base.specs.Names.{optional_text_ref};
    ghost use Rattle.hack_rules.specs.Uses.{is_use_of, view};
    ghost use Rattle.hack_rules.specs.Values.{value_in};

    /// Whether this is a use of the option.
    pub(crate) fn is_of(&self, option: Opt) -> bool
        ensures { result ≡ is_use_of option (view self.now) }
    {
        match self {
            Use::Known { option: used, .. } => used.is(option),
            _ => false,
        }
    }

    /// The value that this use gives to the option.
    pub(crate) fn value_of(&self, option: Opt) -> Option<&String>
        ensures { optional_text_ref result ≡ value_in option (view self.now) }
    {
        match self {
            Use::Known {
                option: used,
                value,
                ..
            } => {
                if used.is(option) {
                    value.as_ref()
                } else {
                    None
                }
            }
            _ => None,
        }
    }
}

/// What is read next.
#[derive(Drop)]
pub(crate) enum NextUse {
    Met(Use),
    End,
    Asks(Print),
}

/// What is read next, or the parse error that comes instead.
pub(crate) type Found = Result<NextUse, CutFault>;

/// The next use after the uses so far, or what comes instead of one.
fn read(alloc: Global, parser: &mut Parser, uses: &[Use]) -> Found
    ensures { ReturnsStep result (left_in parser.new)
        (read_of (views uses.now) (left_in parser.old)) }
{
    match parser.cut() {
        Next::Cut(Arg::Long(name)) => {
            let name = String::from_str(alloc, name)?;
            match long(&name) {
                Some(option) => cut_known(alloc, parser, uses, option, OwnedFlag::Long(name)),
                None => other_name(alloc, parser, uses, name),
            }
        }
        Next::Cut(Arg::Short(letter)) => match short(letter) {
            Some(option) => cut_known(alloc, parser, uses, option, OwnedFlag::Short(letter)),
            None => cut_unknown(alloc, parser, OwnedFlag::Short(letter)),
        },
        Next::Cut(Arg::Value(word)) => {
            let word = String::from_str(alloc, word)?;
            Ok(NextUse::Met(Use::Word(word)))
        }
        Next::Refused { option, value } => Err(CutFault::Unexpected {
            flag: OwnedFlag::of(alloc, option)?,
            value: String::from_str(alloc, value)?,
        }),
        Next::End => Ok(NextUse::End),
    }
}

/// The outcome of all arguments.
#[derive(Debug, Drop)]
pub enum Cuts {
    /// All their uses.
    Uses(Vec<Use>),
    /// A text is to be printed; the arguments after this request are not read.
    Asks(Print),
}

/// All uses, read one after the other.
fn cut_all(alloc: Global, words: Vec<String>) -> Result<Cuts, CutFault>
    ensures { GivesUses result (map string_bytes words.items) }
{
    let mut parser = Parser::from_args(alloc, words);
    let mut uses = Vec::new(alloc);
    loop {
        match read(alloc, &mut parser, &uses)? {
            NextUse::Met(one) => uses.push(one)?,
            NextUse::End => return Ok(Cuts::Uses(uses)),
            NextUse::Asks(print) => return Ok(Cuts::Asks(print)),
        }
    }
}

/// All uses of options, a request to print a text, or the first parse error. Arguments after such a
/// request aren't checked.
pub fn all_uses(alloc: Global, words: Vec<String>) -> Result<Cuts, CutFault>
    ensures uses { GivesUses result (map string_bytes words.items) }
    ensures one { GivesNoOther result (map string_bytes words.items) }
{
    cut_all(alloc, words)
}
