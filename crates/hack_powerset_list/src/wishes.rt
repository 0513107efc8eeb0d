//! What the arguments of `powerset-list` ask for.

ghost use Rattle.std.specs.Prelude.{◌≡◌, IfOk, IfErr, Some, None, option_map};
ghost use Rattle.std.specs.Prelude.{MatchBool, MatchOption};
ghost use Rattle.hack_base.specs.Names.{names_of, names_behind};
ghost use Rattle.hack_features.specs.Feature.{groups_of as names_in_groups};
ghost use Rattle.hack_powerset_list.specs.Words.{none_written, with_option_value, with_words, Asks};
ghost use Rattle.hack_powerset_list.specs.Words.{RefusesWords, IsDepth, IsNoDepth, AreGroups};
ghost use Rattle.hack_powerset_list.specs.Words.{LacksSeparator};
ghost use Rattle.hack_powerset_list.specs.InternalWishesView.{shown_text, written_in};

use crate::fault::ListFault;
use hack_features::Feature;
use hack_words::lists::{has_separator, split_group};
use std::alloc::{AllocError, Global};

const DEPTH: &str = "--depth";

const AT_LEAST_ONE_OF: &str = "--at-least-one-of";

const MUTUALLY_EXCLUSIVE: &str = "--mutually-exclusive-features";

/// Why the arguments are refused.
#[derive(Drop)]
pub enum WordsFault {
    Usage,
    /// The text of the depth, which is no number.
    Number(String),
    /// The option to which a list without a separator is given.
    Group(&'static str),
    Memory,
}

impl From<AllocError> for WordsFault {
    ghost use Rattle.hack_powerset_list.specs.declared.wishes.WordsFault.TheVariants.{Memory};
    ghost use Rattle.std.specs.Prelude.{◌≡◌};

    ghost from_gives = { λ _ e. e ≡ Memory };

    fn from(_e: AllocError) -> WordsFault {
        WordsFault::Memory
    }
}

impl From<WordsFault> for ListFault {
    ghost use Rattle.hack_powerset_list.specs.Words.{list_fault};
    ghost use Rattle.std.specs.Prelude.{◌≡◌};

    ghost from_gives = { λ fault e. e ≡ list_fault fault };

    fn from(fault: WordsFault) -> ListFault {
        match fault {
            WordsFault::Usage => ListFault::Usage,
            WordsFault::Number(text) => ListFault::Number(text),
            WordsFault::Group(option) => ListFault::Group(option),
            WordsFault::Memory => ListFault::Memory,
        }
    }
}

/// The values of the options, as they are written.
#[derive(Drop)]
struct Values<'a> {
    depth: Option<&'a str>,
    at_least_one_of: Vec<&'a str>,
    mutually_exclusive: Vec<&'a str>,
}

impl<'a> Values<'a> {
    /// Takes the value of an option. Returns false if there is no such option, or it takes no
    /// second value.
    fn take(&mut self, option: &str, value: &'a str) -> Result<bool, AllocError>
        ensures { IfOk result (λ taken. MatchBool taken
            (with_option_value (written_in self.old) option.now value.now ≡ Some (written_in self.new))
            (with_option_value (written_in self.old) option.now value.now ≡ None)) }
    {
        if option == DEPTH {
            if self.depth.is_some() {
                return Ok(false);
            }
            self.depth = Some(value);
        } else if option == AT_LEAST_ONE_OF {
            self.at_least_one_of.push(value)?;
        } else if option == MUTUALLY_EXCLUSIVE {
            self.mutually_exclusive.push(value)?;
        } else {
            return Ok(false);
        }
        Ok(true)
    }

    /// The values in the arguments, each of which follows its option; None if the arguments break
    /// the usage.
    fn of(alloc: Global, words: &'a [String]) -> Result<Option<Values<'a>>, AllocError>
        ensures { IfOk result (λ found. with_words none_written (names_of words.now)
            ≡ option_map written_in found) }
    {
        let mut values = Values {
            depth: None,
            at_least_one_of: Vec::new(alloc),
            mutually_exclusive: Vec::new(alloc),
        };
        let mut left = words;
        while let [option, value, rest @ ..] = left {
            if !values.take(option.as_str(), value.as_str())? {
                return Ok(None);
            }
            left = rest;
        }
        // An option is left without its value.
        if !left.is_empty() {
            return Ok(None);
        }
        Ok(Some(values))
    }
}

/// Returns the depth as a number, if one is given. The error is the text that is no number.
fn depth_of(depth: Option<&str>) -> Result<Option<usize>, &str>
    ensures ok { IfOk result (IsDepth (shown_text depth.entry)) }
    ensures err { IfErr result (λ text. IsNoDepth (shown_text depth.entry) text.now) }
{
    let Some(text) = depth else {
        return Ok(None);
    };
    match text.parse::<usize>() {
        Ok(number) => Ok(Some(number)),
        Err(_) => Err(text),
    }
}

/// The groups that the lists name; None if a list has no separator.
fn groups_of(alloc: Global, lists: &[&str]) -> Result<Option<Vec<Feature>>, AllocError>
    ensures { IfOk result (λ found. MatchOption found (LacksSeparator (names_behind lists.now))
        (λ groups. AreGroups (names_behind lists.now) (names_in_groups groups.items))) }
{
    let mut groups = Vec::new(alloc);
    for list in lists {
        if !has_separator(*list) {
            return Ok(None);
        }
        groups.push(Feature::group(alloc, split_group(alloc, *list)?)?)?;
    }
    Ok(Some(groups))
}

/// What the arguments ask for.
#[derive(Drop)]
pub struct Wishes {
    pub depth: Option<usize>,
    pub at_least_one_of: Vec<Feature>,
    pub mutually_exclusive: Vec<Feature>,
}

impl Wishes {
    /// Returns what the arguments ask for, or the first error in them.
    pub fn of(alloc: Global, words: &[String]) -> Result<Wishes, WordsFault>
        ensures ok { IfOk result (λ wishes. Asks (names_of words.now) wishes.depth
            (names_in_groups wishes.at_least_one_of.items)
            (names_in_groups wishes.mutually_exclusive.items)) }
        ensures err { IfErr result (RefusesWords (names_of words.now)) }
    {
        let Some(values) = Values::of(alloc, words)? else {
            return Err(WordsFault::Usage);
        };
        let depth = match depth_of(values.depth) {
            Ok(depth) => depth,
            Err(text) => return Err(WordsFault::Number(String::from_str(alloc, text)?)),
        };
        let Some(mutually_exclusive) = groups_of(alloc, values.mutually_exclusive.as_slice())?
        else {
            return Err(WordsFault::Group(MUTUALLY_EXCLUSIVE));
        };
        let Some(at_least_one_of) = groups_of(alloc, values.at_least_one_of.as_slice())? else {
            return Err(WordsFault::Group(AT_LEAST_ONE_OF));
        };
        Ok(Wishes {
            depth,
            at_least_one_of,
            mutually_exclusive,
        })
    }
}
