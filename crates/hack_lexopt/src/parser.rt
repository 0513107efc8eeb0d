//! The parser: it walks over arguments, and each call returns what comes next.

ghost use Rattle.std.specs.Prelude.{◌≡◌, ◌≢◌, ◌<◌, None, Some, true, OnOk, OnErr, IfOk, IfErr};
ghost use Rattle.std.specs.Prelude.{length, map, string_bytes};
ghost use Rattle.std.specs.Borrow.{sem};
ghost use Rattle.std.specs.Str.{IsCharBoundary};
ghost use Rattle.hack_base.specs.Names.{optional_text};
ghost use Rattle.hack_lexopt.specs.Cuts.{is_long, next_cut, after_cut, attached_value};
ghost use Rattle.hack_lexopt.specs.Cuts.{after_attached, value_of, optional_of, after_value};
ghost use Rattle.hack_lexopt.specs.declared.cuts.Unread.TheVariants.{Closed, Letters};

use crate::arg::{Arg, Flag};
use crate::cuts::{Spot, Unread, first_cut, flag_of, is_plain, is_refused, letter_cut, value_of};
use crate::fault::LexFault;
use std::alloc::{AllocError, Global};
use std::collections::VecDeque;

/// Walks over arguments, one item after the other.
#[derive(Drop)]
pub struct Parser {
    words: VecDeque<String>,
    word: String,
    spot: Spot,
    ghost boundary: { IsCharBoundary (string_bytes word) spot.at },
    ghost letters: { spot.place ≡ Letters → spot.at < length (string_bytes word) },
    ghost long: { spot.place ≢ Closed → spot.letter ≡ None → is_long (string_bytes word) ≡ true },
}

/// What comes next among the arguments.
#[derive(Clone, Copy, Debug, PartialEq, Eq)]
pub enum Next<'a> {
    /// An option, or an argument that is none.
    Cut(Arg<'a>),
    /// The option has an attached value that nobody took.
    Refused { option: Flag<'a>, value: &'a str },
    /// No argument is left.
    End,
}

impl Parser {
    ghost use Rattle.hack_lexopt.specs.Parsers.{left_in, start, cut_seen, IsNext, LeavesToRead};

    /// A parser at the first argument.
    pub fn from_args(alloc: Global, words: Vec<String>) -> Parser
        ensures { left_in result ≡ start (map string_bytes words.items) }
    {
        Parser {
            words: VecDeque::from_vec(words),
            word: String::new(alloc),
            spot: Spot {
                letter: None,
                at: 0,
                place: Unread::Closed,
            },
        }
    }

    /// What comes next: an item, the end, or a value that nobody took; after that the parser is at
    /// the next argument.
    pub fn cut(&mut self) -> Next<'_>
        ensures* leaves { sem 𝓛 (LeavesToRead self.entry (after_cut (left_in self.old))) }
        ensures next { IsNext (left_in self.old) result }
    {
        let Spot { letter, at, place } = self.spot;
        if is_refused(place, &self.word.as_str()[at..]) {
            self.spot.place = Unread::Closed;
            let word = self.word.as_str();
            return Next::Refused {
                option: flag_of(letter, word),
                value: value_of(place, &word[at..]),
            };
        }
        if let Unread::Letters = place {
            // Computed twice: for the spot, and for the letter that is returned.
            self.spot = letter_cut(self.word.as_str(), at).spot;
            return Next::Cut(letter_cut(self.word.as_str(), at).arg);
        }
        let Some(word) = self.words.pop_front() else {
            return Next::End;
        };
        // Computed twice: the result borrows the argument from where the parser keeps it.
        let spot = first_cut(word.as_str()).spot;
        self.word = word;
        self.spot = spot;
        Next::Cut(first_cut(self.word.as_str()).arg)
    }

    /// The next item, or none after the last argument. A value that nobody took is refused here,
    /// and then the parser is at the next argument.
    pub fn next(&mut self) -> Result<Option<Arg<'_>>, LexFault>
        ensures* leaves { sem 𝓛 (LeavesToRead self.entry (after_cut (left_in self.old))) }
        ensures cut { cut_seen result ≡ next_cut (left_in self.old) }
        ensures refused { IfErr result (λ fault. fault ≡ LexFault.UnexpectedValue) }
    {
        match self.cut() {
            Next::Cut(arg) => Ok(Some(arg)),
            Next::Refused { .. } => Err(LexFault::UnexpectedValue),
            Next::End => Ok(None),
        }
    }

    /// The value that is attached to the last option read: the text after the `=` of a long one, or
    /// the rest of a chain without one leading `=`.
    pub fn optional_value(&mut self, alloc: Global) -> Result<Option<String>, AllocError>
        ensures value { IfOk result
            (λ value. optional_text value ≡ attached_value (left_in self.old).untaken) }
        ensures ok { OnOk result (left_in self.new ≡ after_attached (left_in self.old)) }
        ensures err { OnErr result (left_in self.new ≡ left_in self.old) }
    {
        let Spot { at, place, .. } = self.spot;
        if let Unread::Closed = place {
            return Ok(None);
        }
        let value = value_of(place, &self.word.as_str()[at..]);
        let value = String::from_str(alloc, value)?;
        self.spot.place = Unread::Closed;
        Ok(Some(value))
    }

    /// The value of the last option read: the attached one, else the next argument whatever it is.
    pub fn value(&mut self, alloc: Global) -> Result<String, LexFault>
        ensures value { IfOk result
            (λ value. value_of (left_in self.old) ≡ Some (string_bytes value)) }
        ensures missing { result ≡ Err LexFault.MissingValue → value_of (left_in self.old) ≡ None }
        ensures expected { result ≢ Err LexFault.UnexpectedValue }
        ensures ok { OnOk result (left_in self.new
            ≡ after_value (value_of (left_in self.old)) (left_in self.old)) }
        ensures err { OnErr result (left_in self.new ≡ left_in self.old) }
    {
        match self.optional_value(alloc)? {
            Some(value) => Ok(value),
            None => self.words.pop_front().ok_or(LexFault::MissingValue),
        }
    }

    /// The value of an option that may be used without one: the attached one, else the next
    /// argument unless that is an option.
    pub fn value_or_none(&mut self, alloc: Global) -> Result<Option<String>, AllocError>
        ensures value { IfOk result
            (λ value. optional_text value ≡ optional_of (left_in self.old)) }
        ensures ok { OnOk result (left_in self.new
            ≡ after_value (optional_of (left_in self.old)) (left_in self.old)) }
        ensures err { OnErr result (left_in self.new ≡ left_in self.old) }
    {
        if let Some(value) = self.optional_value(alloc)? {
            return Ok(Some(value));
        }
        match self.words.front() {
            Some(word) if is_plain(word.as_str()) => Ok(self.words.pop_front()),
            _ => Ok(None),
        }
    }
}
