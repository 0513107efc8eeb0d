//! The errors of `powerset_list`, and the lines that report them.

ghost use Rattle.std.specs.Prelude.{◌≡◌, ◌++◌, OnOk, Some};
ghost use Rattle.std.specs.IoError.{error_kind};
ghost use Rattle.std.specs.Io.KnownBytes.{Appends};
ghost use Rattle.hack_base.specs.Writes.{AppendsFront, CountsErrors};
ghost use Rattle.hack_powerset_list.specs.Faults.{list_fault_text, fault_line, told_as};

use crate::writes::write_texts;
use hack_base::writes::Sink;
use std::alloc::{AllocError, AllocFailed};
use std::error::Error;
use std::{fmt, io};

/// Why no list is written, or only a part of it.
#[derive(Debug, Drop)]
pub enum ListFault {
    /// An argument is unknown, a value is missing, or `--depth` is given twice.
    Usage,
    /// The depth, which is this text, is no number below 2^64.
    Number(String),
    /// A list given to this option has neither a comma nor a space.
    Group(&'static str),
    /// An argument is not UTF-8.
    NotText,
    /// The input is not JSON, or not an object of arrays of texts.
    Input,
    /// The reader failed.
    Read,
    /// The writer failed. A front of the list was written, maybe an empty one or all of it.
    Write,
    Memory,
}

const USAGE: &str =
    "usage: powerset-list [--depth N] [--at-least-one-of LIST]... [--mutually-exclusive-features LIST]...";

/// The text of an error: what the user wrote, between two fixed parts.
#[derive(Clone, Copy)]
struct Parts<'a> {
    before: &'a str,
    written: &'a str,
    behind: &'a str,
}

impl<'a> Parts<'a> {
    fn fixed(text: &'a str) -> Parts<'a>
        ensures { result.before.now ++ result.written.now ++ result.behind.now ≡ text.now }
    {
        Parts {
            before: text,
            written: "",
            behind: "",
        }
    }
}

impl ListFault {
    /// Turns an error of a reader or a writer into a `ListFault`: into `Memory` if its kind is
    /// `OutOfMemory`, else into `other`.
    pub fn of_error(error: &io::Error, other: ListFault) -> ListFault
        ensures { result ≡ told_as (error_kind error.now) other }
    {
        match error.kind() {
            io::ErrorKind::OutOfMemory => ListFault::Memory,
            _ => other,
        }
    }

    /// Writes the line that reports the error: `error: `, the error's text and a line feed.
    pub fn tell<E: Sink>(&self, err: &mut E) -> io::Result<()>
        ensures all { OnOk result
            (Appends (E.contents err.old) (E.contents err.new) (fault_line self.now)) }
        ensures front { AppendsFront (E.contents err.old) (E.contents err.new)
            (fault_line self.now) }
        ensures counted { CountsErrors (E.failed err.old) (E.failed err.new) result }
    {
        let parts = self.parts();
        write_texts(
            &["error: ", parts.before, parts.written, parts.behind, "\n"],
            err,
        )
    }

    fn parts(&self) -> Parts<'_>
        ensures { result.before.now ++ result.written.now ++ result.behind.now
            ≡ list_fault_text self.now }
    {
        match self {
            ListFault::Usage => Parts::fixed(USAGE),
            ListFault::Number(text) => Parts {
                before: "invalid number `",
                written: text.as_str(),
                behind: "`",
            },
            ListFault::Group(option) => Parts {
                before: "",
                written: *option,
                behind: " requires a list of two or more features separated by space or comma",
            },
            ListFault::NotText => Parts::fixed("the words must be UTF-8"),
            ListFault::Input => Parts::fixed("features must be an object of arrays of texts"),
            ListFault::Read => Parts::fixed("failed to read the features"),
            ListFault::Write => Parts::fixed("failed to write the command list"),
            ListFault::Memory => Parts::fixed("out of memory"),
        }
    }
}

impl fmt::Display for ListFault {
    ghost output = { λ fault. Some (list_fault_text fault) };

    fn fmt<W: fmt::Write>(&self, f: &mut fmt::Formatter<W>) -> fmt::Result {
        let parts = self.parts();
        f.write_str(parts.before)?;
        f.write_str(parts.written)?;
        f.write_str(parts.behind)
    }
}

impl Error for ListFault {}

impl From<AllocError> for ListFault {
    ghost use Rattle.hack_powerset_list.specs.declared.fault.ListFault.TheVariants.{Memory};
    ghost use Rattle.std.specs.Prelude.{◌≡◌};

    ghost from_gives = { λ _ e. e ≡ Memory };

    fn from(_e: AllocError) -> ListFault {
        ListFault::Memory
    }
}

impl<T: Drop> From<AllocFailed<T>> for ListFault {
    ghost use Rattle.hack_powerset_list.specs.declared.fault.ListFault.TheVariants.{Memory};
    ghost use Rattle.std.specs.Prelude.{◌≡◌};

    ghost from_gives = { λ _ e. e ≡ Memory };

    fn from(_e: AllocFailed<T>) -> ListFault {
        ListFault::Memory
    }
}
