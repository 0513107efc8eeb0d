//! The layout of the help.

ghost use Rattle.std.specs.Prelude.{◌≡◌, true, false};

use crate::opt::Opt;
use crate::table::{ALL, HelpText};
use std::fmt;

const HEAD: &str = "cargo-hack
Cargo subcommand to provide various options useful for testing and continuous integration.

USAGE:
    cargo hack [OPTIONS] [SUBCOMMAND]

Use -h for short descriptions and --help for more details.

OPTIONS:
";

const TAIL: &str = "Some common cargo commands are (see all commands with --list):
    build       Compile the current package
    check       Analyze the current package and report errors, but don't build object files
    run         Run a binary or example of the local package
    test        Run the tests
";

/// Lines end before this column.
const LINE_END: usize = 100;
/// The column where texts begin in the long form.
const LONG_INDENT: usize = 12;
/// The column where texts begin in the short form.
const SHORT_INDENT: usize = 41;
/// The columns for name and value in the short form.
const NAME_PLACES: usize = 32;

/// The help, as `-h` or as `--help` prints it.
#[derive(Clone, Copy, Debug, PartialEq, Eq)]
pub struct Help {
    /// Whether the rows have their paragraphs too.
    pub long: bool,
}

impl Help {
    /// One line for each row, as `-h` prints it.
    pub fn short() -> Help
        ensures { result.long ≡ false }
    {
        Help { long: false }
    }

    /// The rows with their paragraphs, as `--help` prints it.
    pub fn long() -> Help
        ensures { result.long ≡ true }
    {
        Help { long: true }
    }
}

impl fmt::Display for Help {
    fn fmt<W: fmt::Write>(&self, f: &mut fmt::Formatter<W>) -> fmt::Result {
        write!(f, "{HEAD}")?;
        for &option in &ALL {
            match option.row().told {
                Some(told) if self.long => HelpRow { option, told }.write_long(f)?,
                Some(told) => HelpRow { option, told }.write_short(f)?,
                None => {}
            }
        }
        if !self.long {
            writeln!(f)?;
        }
        write!(f, "{TAIL}")
    }
}

/// A row of the help.
#[derive(Clone, Copy)]
struct HelpRow {
    option: Opt,
    told: HelpText,
}

impl HelpRow {
    /// In one line, as `-h` shows it.
    fn write_short<W: fmt::Write>(&self, f: &mut fmt::Formatter<W>) -> fmt::Result {
        let name = Name {
            option: self.option,
        };
        let pad = Spaces {
            count: name.places_left(),
        };
        let text = Wrapped {
            text: self.told.text,
            indent: SHORT_INDENT,
        };
        writeln!(f, "    {name}{pad} {text}")
    }

    /// With its paragraphs, as `--help` shows it.
    fn write_long<W: fmt::Write>(&self, f: &mut fmt::Formatter<W>) -> fmt::Result {
        let name = Name {
            option: self.option,
        };
        let indent = Spaces { count: LONG_INDENT };
        let text = Wrapped {
            text: self.told.text,
            indent: LONG_INDENT,
        };
        write!(f, "    {name}\n{indent}{text}.\n\n")?;
        for &paragraph in self.told.paragraphs {
            let text = Wrapped {
                text: paragraph,
                indent: LONG_INDENT,
            };
            write!(f, "{indent}{text}\n\n")?;
        }
        Ok(())
    }
}

/// The head of a row: the letter or its blank columns, the name, and the value after it.
#[derive(Clone, Copy)]
struct Name {
    option: Opt,
}

impl Name {
    /// How many columns of the short form remain after the name and the value.
    fn places_left(&self) -> usize {
        let left = NAME_PLACES.saturating_sub("--".len() + self.option.shown_name().len());
        match self.option.row().value {
            "" => left,
            value => left.saturating_sub(" ".len() + value.len()),
        }
    }
}

impl fmt::Display for Name {
    fn fmt<W: fmt::Write>(&self, f: &mut fmt::Formatter<W>) -> fmt::Result {
        let row = self.option.row();
        match row.letter {
            Some(letter) if self.option.shows_letter() => write!(f, "-{letter}, ")?,
            _ => write!(f, "    ")?,
        }
        write!(f, "{}", self.option)?;
        match row.value {
            "" => Ok(()),
            value => write!(f, " {value}"),
        }
    }
}

/// This many spaces.
#[derive(Clone, Copy)]
struct Spaces {
    count: usize,
}

impl fmt::Display for Spaces {
    fn fmt<W: fmt::Write>(&self, f: &mut fmt::Formatter<W>) -> fmt::Result {
        for _ in 0..self.count {
            write!(f, " ")?;
        }
        Ok(())
    }
}

/// A text broken at its spaces into lines, each but the first after an indent. A word counts as
/// wide as its bytes.
#[derive(Clone, Copy)]
struct Wrapped<'a> {
    text: &'a str,
    indent: usize,
}

impl fmt::Display for Wrapped<'_> {
    fn fmt<W: fmt::Write>(&self, f: &mut fmt::Formatter<W>) -> fmt::Result {
        let places = LINE_END.saturating_sub(self.indent);
        // How many columns the line has left.
        let mut left = places;
        for word in self.text.split(' ') {
            if word.len() + 1 >= left {
                write!(f, "\n{}", Spaces { count: self.indent })?;
                left = places;
            } else if left < places {
                write!(f, " ")?;
                left -= 1;
            }
            write!(f, "{word}")?;
            left = left.saturating_sub(word.len());
        }
        Ok(())
    }
}
