//! Arguments parsed into options, and what uses of options say.

use crate::answers::{Found, joined, or_none, word, yes};
use crate::table::Group;
use hack_features::Feature;
use hack_lexopt::{Next, Parser};
use hack_options::{Opt, Usage, long};
use hack_rules::named::{groups, lifts, names, optional_names, targets};
use hack_rules::uses::{
    Cuts, Print, Use, WorkspaceBehavior, all_uses, count, given, leading, subcommand, value, values,
};
use std::alloc::{AllocError, Global};

/// `cuts`: the items that a parser reads. `passed`: the arguments that are passed on, the text that
/// is asked for, or the error. `subcommand`: from the uses. `value`, `values`: from the uses in the
/// arguments after the first one, which names an option. `usage`, `usage of a letter`, `named`: how
/// an option is shown.
pub(crate) fn answer(alloc: Global, group: &Group, words: &[String]) -> Found {
    let text = match group.kind.as_str() {
        "cuts" => cuts(alloc, words)?,
        "passed" => passed(alloc, WorkspaceBehavior::new(group.has("cargo")), words)?,
        "subcommand" => {
            let uses = uses_of(alloc, words)?;
            or_none(alloc, subcommand(&uses).map(|word| word.as_str()))?
        }
        "value" => value_text(alloc, words)?,
        "values" => values_text(alloc, words)?,
        "usage" => format!(in alloc; "{}", Usage::Long(word(words, 0)))?,
        "usage of a letter" => usage_of_a_letter(alloc, word(words, 0))?,
        "named" => named(alloc, word(words, 0))?,
        _ => return given_text(alloc, group, words),
    };
    Ok(Some(text))
}

/// A copy of the arguments.
fn copied(alloc: Global, words: &[String]) -> Result<Vec<String>, AllocError> {
    let mut copies = Vec::new(alloc);
    for word in words {
        copies.push(word.clone()?)?;
    }
    Ok(copies)
}

/// The text of the next item; none after the last; where it is refused, the option and the value
/// that nobody took.
fn cut(alloc: Global, parser: &mut Parser) -> Result<Option<String>, AllocError> {
    match parser.cut() {
        Next::Cut(arg) => Ok(Some(format!(in alloc; "{arg}")?)),
        Next::Refused { option, value } => {
            Ok(Some(format!(in alloc; "{option} refuses {value}")?))
        }
        Next::End => Ok(None),
    }
}

/// The first twenty items of the arguments.
fn cuts(alloc: Global, words: &[String]) -> Result<String, AllocError> {
    let mut parser = Parser::from_args(alloc, copied(alloc, words)?);
    let mut texts = Vec::new(alloc);
    for _ in 0..20 {
        match cut(alloc, &mut parser)? {
            Some(text) => texts.push(text)?,
            None => break,
        }
    }
    joined(alloc, &texts)
}

/// The uses of arguments that are parsed without an error and ask for no text; none for others.
fn uses_of(alloc: Global, words: &[String]) -> Result<Vec<Use>, AllocError> {
    match all_uses(alloc, copied(alloc, words)?) {
        Ok(Cuts::Uses(uses)) => Ok(uses),
        _ => Ok(Vec::new(alloc)),
    }
}

/// The text of the error, the text that is asked for, or the arguments that are passed on.
fn passed(
    alloc: Global,
    behavior: WorkspaceBehavior,
    words: &[String],
) -> Result<String, AllocError> {
    match all_uses(alloc, copied(alloc, words)?) {
        Err(fault) => format!(in alloc; "{fault}"),
        Ok(Cuts::Asks(Print::ShortHelp)) => String::from_str(alloc, "short help"),
        Ok(Cuts::Asks(Print::LongHelp)) => String::from_str(alloc, "long help"),
        Ok(Cuts::Asks(Print::Version)) => String::from_str(alloc, "version"),
        Ok(Cuts::Uses(uses)) => joined(alloc, &leading(alloc, behavior, &uses)?),
    }
}

/// The option that the group names.
fn option_of(group: &Group) -> Option<Opt> {
    match group.setting("option") {
        Some(name) => long(name),
        None => None,
    }
}

/// The option that the first argument names, and the uses in the others.
fn asked(alloc: Global, words: &[String]) -> Result<Option<(Opt, Vec<Use>)>, AllocError> {
    match words.split_first() {
        Some((name, words)) => match long(name.as_str()) {
            Some(option) => Ok(Some((option, uses_of(alloc, words)?))),
            None => Ok(None),
        },
        None => Ok(None),
    }
}

/// The first value that the uses give the option, else whether it is given, or `not given`.
fn value_text(alloc: Global, words: &[String]) -> Result<String, AllocError> {
    let (option, uses) = match asked(alloc, words)? {
        Some(asked) => asked,
        None => return String::from_str(alloc, "no option"),
    };
    if !given(option, &uses) {
        return String::from_str(alloc, "not given");
    }
    match value(option, &uses) {
        Some(text) => format!(in alloc; "given {text}"),
        None => String::from_str(alloc, "given"),
    }
}

/// All values that the uses give the option, and how often it is used.
fn values_text(alloc: Global, words: &[String]) -> Result<String, AllocError> {
    let (option, uses) = match asked(alloc, words)? {
        Some(asked) => asked,
        None => return String::from_str(alloc, "no option"),
    };
    let mut text = joined(alloc, &values(alloc, option, &uses)?)?;
    let times = count(option, &uses);
    text.push_str(format!(in alloc; " in {times}")?.as_str())?;
    Ok(text)
}

/// How usage shows the option with this letter.
fn usage_of_a_letter(alloc: Global, text: &str) -> Result<String, AllocError> {
    match text.chars().next() {
        Some(letter) => format!(in alloc; "{}", Usage::Short(letter)),
        None => String::from_str(alloc, "no letter"),
    }
}

/// How messages name the option with this name, alone and with its alias, and whether it is an
/// alias.
fn named(alloc: Global, name: &str) -> Result<String, AllocError> {
    match long(name) {
        Some(option) => {
            let means = option.means();
            let other = yes(alloc, !means.is(option))?;
            format!(in alloc; "{option}|{}|{other}", option.with_alias())
        }
        None => String::from_str(alloc, "no option"),
    }
}

/// The names, groups, targets or lifted groups that the uses give, or the error of the last.
fn given_text(
    alloc: Global,
    group: &Group,
    words: &[String],
) -> Result<Option<String>, AllocError> {
    let uses = uses_of(alloc, words)?;
    let option = option_of(group).unwrap_or(Opt::Features);
    let text = match group.kind.as_str() {
        "names" => joined(alloc, &names(alloc, option, &uses)?)?,
        "optional names" => match optional_names(alloc, &uses)? {
            Some(names) => joined(alloc, &names)?,
            None => String::from_str(alloc, "none")?,
        },
        "groups of names" => joined(alloc, &names_of(alloc, &groups(alloc, option, &uses)?)?)?,
        "targets" => joined(alloc, &targets(alloc, &uses)?)?,
        "lifts" => {
            let exclusive = groups(alloc, Opt::MutuallyExclusiveFeatures, &uses)?;
            match lifts(alloc, &exclusive, &uses) {
                Ok(lifts) => lifts_text(alloc, &lifts)?,
                Err(fault) => format!(in alloc; "{fault}")?,
            }
        }
        _ => return Ok(None),
    };
    Ok(Some(text))
}

fn names_of(alloc: Global, features: &[Feature]) -> Result<Vec<String>, AllocError> {
    let mut names = Vec::new(alloc);
    for feature in features {
        names.push(String::from_str(alloc, feature.name())?)?;
    }
    Ok(names)
}

/// Each package with its group.
fn lifts_text(alloc: Global, lifts: &[(String, Feature)]) -> Result<String, AllocError> {
    let mut texts = Vec::new(alloc);
    for (package, group) in lifts {
        texts.push(format!(in alloc; "{package}:{}", group.name())?)?;
    }
    joined(alloc, &texts)
}
