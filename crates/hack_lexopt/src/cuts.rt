//! How an argument is split. What borrows from an argument is made by functions over texts, so that
//! the parser itself only moves its position.

ghost use Rattle.std.specs.Prelude.{◌≡◌, ◌≢◌, ◌↔◌, ◌<◌, None, Some, true, IsSome, IsTrue};
ghost use Rattle.std.specs.Prelude.{length, drop};
ghost use Rattle.std.specs.Str.{IsCharBoundary};
ghost use Rattle.hack_base.specs.Cuts.{front_of};
ghost use Rattle.hack_lexopt.specs.Cuts.{FlagCut, ShortFlag, cut_of, untaken_of};
ghost use Rattle.hack_lexopt.specs.Cuts.{first_letter, after_letter, attached_value, unexpected_of};
ghost use Rattle.hack_lexopt.specs.Cuts.{is_plain_word as plain, is_long};
ghost use Rattle.hack_lexopt.specs.Parsers.{cut_in, flag_in, option_at, untaken_at, untaken_rest};
ghost use Rattle.hack_lexopt.specs.Internal.{letter_in};

use crate::arg::{Arg, Flag};

/// What is left of an argument.
#[derive(Clone, Copy)]
pub(crate) enum Unread {
    /// Nothing that a later call may read.
    Closed,
    /// The value after the `=` of a long option.
    Value,
    /// The remaining letters of a chain.
    Letters,
}

/// How far the last argument has been read.
#[derive(Clone, Copy)]
pub(crate) struct Spot {
    /// The last letter that was read of a chain.
    pub letter: Option<char>,
    /// Where the unread rest of the argument begins.
    pub at: usize,
    pub place: Unread,
}

/// An item of an argument, and how far it reads the argument.
#[derive(Clone, Copy)]
pub(crate) struct Head<'a> {
    pub arg: Arg<'a>,
    pub spot: Spot,
}

/// The letter of a chain that begins at this byte.
pub(crate) fn letter_cut(word: &str, at: usize) -> Head<'_>
    requires boundary { IsCharBoundary word.now at }
    requires letters { at < length word.now }
    ensures cut { cut_in result.arg
        ≡ FlagCut (ShortFlag (first_letter (drop at word.now))) }
    ensures letter { result.spot.letter ≡ letter_in (cut_in result.arg) }
    ensures untaken { untaken_at result.spot word.now ≡ after_letter (drop at word.now) }
    ensures boundary { IsCharBoundary word.now result.spot.at }
    ensures letters { result.spot.place ≡ Unread.Letters → result.spot.at < length word.now }
{
    let mut chars = word[at..].chars();
    let Some(letter) = chars.next() else {
        unreachable!()
    };
    let rest = chars.as_str();
    let place = if rest.is_empty() {
        Unread::Closed
    } else {
        Unread::Letters
    };
    Head {
        arg: Arg::Short(letter),
        spot: Spot {
            letter: Some(letter),
            at: word.len() - rest.len(),
            place,
        },
    }
}

/// An item that isn't a letter.
fn whole_cut(arg: Arg<'_>, at: usize, place: Unread) -> Head<'_>
    ensures { result ≡
        record { arg = arg.entry; spot = record { letter = None; at = at; place = place } } }
{
    let letter = None;
    Head {
        arg,
        spot: Spot { letter, at, place },
    }
}

/// The first item of an argument.
pub(crate) fn first_cut(word: &str) -> Head<'_>
    ensures cut { cut_in result.arg ≡ cut_of word.now }
    ensures letter { result.spot.letter ≡ letter_in (cut_of word.now) }
    ensures untaken { untaken_at result.spot word.now ≡ untaken_of word.now }
    ensures boundary { IsCharBoundary word.now result.spot.at }
    ensures letters { result.spot.place ≡ Unread.Letters → result.spot.at < length word.now }
    ensures long { result.spot.place ≢ Unread.Closed → result.spot.letter ≡ None
        → is_long word.now ≡ true }
{
    if let Some(body) = word.strip_prefix("--") {
        return match body.split_once('=') {
            Some((name, value)) => {
                whole_cut(Arg::Long(name), word.len() - value.len(), Unread::Value)
            }
            None => whole_cut(Arg::Long(body), 0, Unread::Closed),
        };
    }
    if word.starts_with("-") && word.len() > 1 {
        return letter_cut(word, 1);
    }
    whole_cut(Arg::Value(word), 0, Unread::Closed)
}

/// Whether the rest of an argument is a value that nobody took.
pub(crate) fn is_refused(place: Unread, rest: &str) -> bool
    ensures { IsTrue result ↔ IsSome (unexpected_of (untaken_rest place rest.now)) }
{
    match place {
        Unread::Closed => false,
        Unread::Value => true,
        Unread::Letters => rest.starts_with("="),
    }
}

/// The part of the rest of an argument that serves as a value.
pub(crate) fn value_of(place: Unread, rest: &str) -> &str
    ensures { place ≢ Unread.Closed → attached_value (untaken_rest place rest.now)
        ≡ Some result.now }
{
    match place {
        Unread::Letters => rest.strip_prefix("=").unwrap_or(rest),
        _ => rest,
    }
}

/// The name of a long option.
fn long_name(word: &str) -> &str
    requires { is_long word.now ≡ true }
    ensures { result.now ≡ front_of 61 (drop 2 word.now) }
{
    let body = word.strip_prefix("--").unwrap_or(word);
    match body.split_once('=') {
        Some((name, _)) => name,
        None => body,
    }
}

/// The last option that was read of an argument: a letter of a chain, else the long name.
pub(crate) fn flag_of(letter: Option<char>, word: &str) -> Flag<'_>
    requires { letter ≡ None → is_long word.now ≡ true }
    ensures { option_at letter word.now ≡ Some (flag_in result) }
{
    match letter {
        Some(letter) => Flag::Short(letter),
        None => Flag::Long(long_name(word)),
    }
}

/// Whether the argument is no option.
pub(crate) fn is_plain(word: &str) -> bool
    ensures { result ≡ plain word.now }
{
    !word.starts_with("--") && !(word.starts_with("-") && word.len() > 1)
}
