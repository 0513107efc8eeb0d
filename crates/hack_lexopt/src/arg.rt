//! The items that an argument is split into.

ghost use Rattle.hack_lexopt.specs.Cuts.{as_written, flag_text};
ghost use Rattle.hack_lexopt.specs.Parsers.{cut_in, flag_in};

use std::fmt;

/// One item. It is displayed as the option was written, `--name` or `-c`, or as the value.
#[derive(Clone, Copy, Debug, PartialEq, Eq)]
pub enum Arg<'a> {
    /// The name without its `--`.
    Long(&'a str),
    Short(char),
    /// An argument that is no option.
    Value(&'a str),
}

impl fmt::Display for Arg<'_> {
    ghost use Rattle.std.specs.Prelude.{Some};

    ghost output = { λ arg. Some (as_written (cut_in arg)) };

    fn fmt<W: fmt::Write>(&self, f: &mut fmt::Formatter<W>) -> fmt::Result {
        match self {
            Arg::Long(name) => write!(f, "--{name}"),
            Arg::Short(letter) => write!(f, "-{letter}"),
            Arg::Value(word) => write!(f, "{word}"),
        }
    }
}

/// An option as it was written. It is displayed as that, `--name` or `-c`.
#[derive(Clone, Copy, Debug, PartialEq, Eq)]
pub enum Flag<'a> {
    /// The name without its `--`.
    Long(&'a str),
    Short(char),
}

impl fmt::Display for Flag<'_> {
    ghost use Rattle.std.specs.Prelude.{Some};

    ghost output = { λ flag. Some (flag_text (flag_in flag)) };

    fn fmt<W: fmt::Write>(&self, f: &mut fmt::Formatter<W>) -> fmt::Result {
        match self {
            Flag::Long(name) => write!(f, "--{name}"),
            Flag::Short(letter) => write!(f, "-{letter}"),
        }
    }
}
