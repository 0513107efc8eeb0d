//! What lines and lists are written to, and texts written as far as it takes them.

ghost use Rattle.std.specs.Prelude.{◌≡◌, ◌<◌, ℕ, List, Option, None, Some, OnOk, length, true};
ghost use Rattle.std.specs.Io.{WritesAtMost};
ghost use Rattle.std.specs.Io.KnownBytes.{Appends, Keeps, WriteAppends};
ghost use Rattle.hack_base.specs.Writes.{AppendsFront, CountsErrors, CountsFailure, CountsWrite};
ghost use Rattle.hack_base.specs.Writes.{HasFailed, NoFewer, line, takes_none, write_failed};

use std::io;
use std::io::{ErrorKind, Write};

/// What bytes are written to: any writer, and those that count how often they fail.
pub trait Sink {
    /// The bytes that were written, if the type shows them.
    ghost contents: { Self → Option (List ℕ) };

    /// How often a call failed, if the type counts it. At 2^64 - 1 the count stays.
    ghost failed: { Self → Option ℕ };

    /// Writes some bytes from the front on, and returns how many. Taking none of some counts as a
    /// failure, and a write of no bytes never does.
    fn put_some(&mut self, bytes: &[u8]) -> io::Result<usize>
        ensures bound { WritesAtMost result bytes.now }
        ensures bytes { WriteAppends (contents self.old) (contents self.new) result bytes.now }
        ensures counted { CountsWrite bytes.now (failed self.old) (failed self.new) result };

    /// Flushes what was written.
    fn finish(&mut self) -> io::Result<()>
        ensures bytes { Keeps (contents self.old) (contents self.new) }
        ensures counted { CountsFailure (failed self.old) (failed self.new) result };
}

impl<W: Write> Sink for W {
    ghost contents = { W.contents };

    ghost failed = { λ _. None };

    fn put_some(&mut self, bytes: &[u8]) -> io::Result<usize> {
        self.write(bytes)
    }

    fn finish(&mut self) -> io::Result<()> {
        self.flush()
    }
}

/// A writer whose failures are counted.
#[derive(Drop)]
pub struct Counted<'a, S> {
    pub stream: &'a mut S,
    /// How often it failed.
    pub failed: u64,
}

impl<W: Write> Sink for Counted<'_, W> {
    ghost contents = { λ counted. W.contents counted.stream.now };

    ghost failed = { λ counted. Some counted.failed };

    fn put_some(&mut self, bytes: &[u8]) -> io::Result<usize> {
        let outcome = self.stream.write(bytes);
        if has_failed(bytes, &outcome) {
            self.failed = self.failed.saturating_add(1);
        }
        outcome
    }

    fn finish(&mut self) -> io::Result<()> {
        match self.stream.flush() {
            Ok(()) => Ok(()),
            Err(error) => {
                self.failed = self.failed.saturating_add(1);
                Err(error)
            }
        }
    }
}

/// Whether a write of these bytes failed.
fn has_failed(bytes: &[u8], outcome: &io::Result<usize>) -> bool
    ensures { result ≡ write_failed bytes.now outcome.now }
{
    !bytes.is_empty() && matches!(outcome, Ok(0) | Err(_))
}

/// Writes some bytes from the front on, again where that was interrupted, and returns how many.
pub fn put_again<W: Sink>(bytes: &[u8], out: &mut W) -> io::Result<usize>
    ensures bound { WritesAtMost result bytes.now }
    ensures bytes { WriteAppends (W.contents out.old) (W.contents out.new) result bytes.now }
    ensures grows { NoFewer (W.failed out.old) (W.failed out.new) }
    ensures missed { 0 < length bytes.now → takes_none result ≡ true
        → HasFailed (W.failed out.old) (W.failed out.new) }
{
    for _ in 0..u64::MAX {
        match out.put_some(bytes) {
            Ok(n) => return Ok(n),
            Err(fault) => {
                if fault.kind() != ErrorKind::Interrupted {
                    return Err(fault);
                }
            }
        }
    }
    Err(io::Error::from(ErrorKind::Interrupted))
}

/// Writes a text, or a prefix of it where a write fails. An interrupted write is tried again; a
/// write that takes nothing is the error `WriteZero`.
pub fn write_front<W: Sink>(text: &str, out: &mut W) -> io::Result<()>
    ensures all { OnOk result (Appends (W.contents out.old) (W.contents out.new) text.now) }
    ensures front { AppendsFront (W.contents out.old) (W.contents out.new) text.now }
    ensures counted { CountsErrors (W.failed out.old) (W.failed out.new) result }
{
    let mut rest = text.as_bytes();
    while !rest.is_empty() {
        match put_again(rest, out) {
            Ok(0) => return Err(io::Error::from(ErrorKind::WriteZero)),
            Ok(n) => rest = &rest[n..],
            Err(fault) => return Err(fault),
        }
    }
    Ok(())
}

/// Writes a line of two parts, or a prefix of it where a write fails.
pub fn write_line<W: Sink>(label: &str, text: &str, out: &mut W) -> io::Result<()>
    ensures all { OnOk result (Appends (W.contents out.old) (W.contents out.new)
        (line label.now text.now)) }
    ensures front { AppendsFront (W.contents out.old) (W.contents out.new)
        (line label.now text.now) }
    ensures counted { CountsErrors (W.failed out.old) (W.failed out.new) result }
{
    write_front(label, out)?;
    write_front(text, out)?;
    write_front("\n", out)
}
