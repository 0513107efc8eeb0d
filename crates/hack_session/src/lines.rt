//! Writers of lines, and why a line isn't written.

ghost use Rattle.std.specs.Prelude.{ℕ, List, Option, IfSome, OnErr, OnOk};
ghost use Rattle.std.specs.Fmt.{with_newline};
ghost use Rattle.std.specs.Io.KnownBytes.{Appends, Keeps};

use std::alloc::AllocError;
use std::fmt;

/// Why a line isn't written.
#[derive(Clone, Copy, Debug, PartialEq, Eq)]
pub enum LineFault {
    /// The writer failed.
    Unwritten,
    Memory,
}

impl From<AllocError> for LineFault {
    ghost use Rattle.hack_session.specs.declared.lines.LineFault.TheVariants.{Memory};
    ghost use Rattle.std.specs.Prelude.{◌≡◌};

    ghost from_gives = { λ _ e. e ≡ Memory };

    fn from(_e: AllocError) -> LineFault {
        LineFault::Memory
    }
}

/// A writer of lines. It counts those that it failed to write.
pub trait Lines {
    ghost use Rattle.hack_session.specs.ListLines.{CountsFailedLine};

    /// The bytes that were written, where they are known.
    ghost contents: { Self → Option (List ℕ) };

    /// Whether a text that can't be written is left out whole.
    ghost whole: { Type 0 };

    /// How many lines could not be written. The count stays at its greatest value.
    ghost failed: { Self → ℕ };

    /// What each write keeps, for example which objects the type's references lead to.
    ghost stays: { Self → Self → Type 0 };

    /// Writes a text and a line feed.
    fn line<D: fmt::Display + Drop>(&mut self, text: D) -> Result<(), fmt::Error>
        ensures counted { CountsFailedLine (failed self.old) (failed self.new) result }
        ensures written { OnOk result (IfSome (with_newline (D.output text))
            (Appends (contents self.old) (contents self.new))) }
        ensures missed { OnErr result (whole → Keeps (contents self.old) (contents self.new)) }
        ensures stays { stays self.old self.new };

    ghost stays_none: { (a : Self) → stays a a };

    ghost stays_more: { (a b c : Self) → stays a b → stays b c → stays a c };
}
