//! How messages name options.

ghost use Rattle.std.specs.Prelude.{Some};
ghost use Rattle.hack_options.specs.Texts.{shown_with_alias, aliased_option, usage_text};

use crate::find::{long, short};
use crate::opt::Opt;
use std::fmt;

/// An option with its alias after it, `--exclude-features (--skip)`, in the messages that name
/// both.
#[derive(Clone, Copy)]
pub struct WithAlias {
    pub option: Opt,
}

impl fmt::Display for WithAlias {
    ghost output = { λ told. Some (shown_with_alias (aliased_option told)) };

    fn fmt<W: fmt::Write>(&self, f: &mut fmt::Formatter<W>) -> fmt::Result {
        match self.option {
            Opt::ExcludeFeatures => write!(f, "--exclude-features (--skip)"),
            option => write!(f, "{option}"),
        }
    }
}

/// An option in its written form, as a message on its usage shows it: name and value of the row of
/// the help that has this form, else the form itself. For an option without a value the line ends
/// with a space.
#[derive(Clone, Copy)]
pub enum Usage<'a> {
    /// The name without its `--`.
    Long(&'a str),
    Short(char),
}

impl fmt::Display for Usage<'_> {
    ghost output = { λ usage. Some (usage_text usage) };

    fn fmt<W: fmt::Write>(&self, f: &mut fmt::Formatter<W>) -> fmt::Result {
        match self {
            Usage::Long(name) => match long(name) {
                Some(option) if option.has_usage() => write!(f, "{}", RowUsage { option }),
                _ => write!(f, "--{name}"),
            },
            Usage::Short(letter) => match short(*letter) {
                Some(option) if option.has_letter_usage() => write!(f, "{}", RowUsage { option }),
                _ => write!(f, "-{letter}"),
            },
        }
    }
}

/// Name and value of an option's row.
#[derive(Clone, Copy)]
struct RowUsage {
    option: Opt,
}

impl fmt::Display for RowUsage {
    ghost use Rattle.hack_options.specs.Texts.{row_usage};

    ghost output = { λ row. Some (row_usage row.option) };

    fn fmt<W: fmt::Write>(&self, f: &mut fmt::Formatter<W>) -> fmt::Result {
        let row = self.option.row();
        write!(f, "--{} {}", row.name, row.value)
    }
}
