//! Lines that are gathered before they are written.

ghost use Rattle.std.specs.Prelude.{◌≡◌, ◌<◌, ◌≤◌, ◌++◌, [], IfErr, IfOk, IfSome, OnErr, OnOk};
ghost use Rattle.std.specs.Prelude.{MatchBool, drop, false, length, true, vec_len};
ghost use Rattle.std.specs.Fmt.{with_newline};
ghost use Rattle.std.specs.Io.KnownBytes.{Appends, Keeps, append_known};
ghost use Rattle.hack_base.specs.Writes.{CountsErrors, HasFailed, NoFewer};
ghost use Rattle.hack_run.specs.InternalExtensions.{CountsLine, Extends, MissesForACause};

use hack_base::writes::{Sink, put_again};
use hack_session::session::{LineFault, Lines};
use std::alloc::{AllocError, Global};
use std::io::ErrorKind;
use std::{fmt, io};

/// How many bytes are gathered, unless a text is longer: as many as a pipe takes at once.
const ROOM: usize = 65_536;

/// Lines on a writer that are gathered, and written together. What can't be written stays gathered.
/// A line that then has no room is left out whole.
#[derive(Drop)]
pub(crate) struct GatheredLines<'a, O: Sink> {
    pub(crate) out: &'a mut O,
    pub(crate) gathered: &'a mut Vec<u8>,
    /// Where a line is put together; its memory is used for the next one.
    line: &'a mut String,
    /// How many lines could not be written.
    pub(crate) failed: u64,
    /// Whether memory ran out for one of them.
    pub(crate) short: bool,
}

impl<O: Sink> Lines for GatheredLines<'_, O> {
    ghost use Rattle.std.proofs.Common.{◌∙◌, refl};
    ghost use Rattle.hack_run.specs.InternalExtensions.{extends_none, extends_then};
    ghost use Rattle.hack_run.specs.InternalExtensions.{misses_none, misses_then};

    ghost contents = { λ w. append_known (O.contents w.out.now) w.gathered.now.items };

    ghost whole = { Unit {0} };

    ghost failed = { λ w. w.failed };

    ghost stays = { λ a b. (a.out.ghost_name ≡ b.out.ghost_name)
        × (a.gathered.ghost_name ≡ b.gathered.ghost_name)
        × Extends (O.contents a.out.now) (O.contents b.out.now)
        × MissesForACause (O.failed a.out.now) (O.failed b.out.now) a.short b.short
        a.failed b.failed };

    ghost stays_none = { λ a. (
      refl,
      refl,
      extends_none (O.contents a.out.now),
      misses_none (O.failed a.out.now) a.short a.failed,
    ) };

    ghost stays_more = { λ a b c p q. (
      p.0 ∙ q.0,
      p.1 ∙ q.1,
      extends_then (O.contents a.out.now) (O.contents b.out.now) (O.contents c.out.now) p.2 q.2,
      misses_then (O.failed a.out.now) (O.failed b.out.now) (O.failed c.out.now) a.short b.short
          c.short a.failed b.failed c.failed p.3 q.3,
    ) };

    fn line<D: fmt::Display + Drop>(&mut self, text: D) -> Result<(), fmt::Error> {
        match put_line(self.out, self.gathered, self.line, text) {
            Ok(()) => Ok(()),
            Err(fault) => {
                self.failed = self.failed.saturating_add(1);
                self.short |= fault == LineFault::Memory;
                Err(fmt::Error)
            }
        }
    }
}

/// Allocates the buffer in which lines are gathered.
pub(crate) fn room(alloc: Global) -> Result<Vec<u8>, AllocError>
    ensures { IfOk result (λ gathered. gathered.items ≡ []) }
{
    Vec::with_capacity(alloc, ROOM)
}

/// Returns lines that are gathered in this buffer, none of which is missing. Each is put together in
/// `line`.
pub(crate) fn gather_on<'a, O: Sink>(
    out: &'a mut O,
    gathered: &'a mut Vec<u8>,
    line: &'a mut String,
) -> GatheredLines<'a, O>
    ensures out { (result.out.ghost_name ≡ out.entry.ghost_name)
        × (result.out.now ≡ out.entry.now) }
    ensures gathered { (result.gathered.ghost_name ≡ gathered.entry.ghost_name)
        × (result.gathered.now ≡ gathered.entry.now) }
    ensures failed { (result.failed ≡ 0) × (result.short ≡ false) }
{
    GatheredLines {
        out,
        gathered,
        line,
        failed: 0,
        short: false,
    }
}

/// Gathers a text and a line feed, put together in `line`.
fn put_line<O: Sink, D: fmt::Display + Drop>(
    out: &mut O,
    gathered: &mut Vec<u8>,
    line: &mut String,
    text: D,
) -> Result<(), LineFault>
    ensures written { OnOk result (IfSome (with_newline (D.output text))
        (Appends (append_known (O.contents out.old) gathered.old.items)
        (append_known (O.contents out.new) gathered.new.items))) }
    ensures missed { OnErr result (Keeps (append_known (O.contents out.old) gathered.old.items)
        (append_known (O.contents out.new) gathered.new.items)) }
    ensures grown { Extends (O.contents out.old) (O.contents out.new) }
    ensures counted { CountsLine (O.failed out.old) (O.failed out.new) result }
{
    line.clear();
    match line.writeln(text) {
        Ok(()) => gather(out, gathered, line.as_str()),
        Err(AllocError) => Err(LineFault::Memory),
    }
}

/// Gathers a text. Where there is no room for it, what is gathered so far is written first.
fn gather<O: Sink>(out: &mut O, gathered: &mut Vec<u8>, text: &str) -> Result<(), LineFault>
    ensures written { OnOk result (Appends (append_known (O.contents out.old) gathered.old.items)
        (append_known (O.contents out.new) gathered.new.items) text.now) }
    ensures missed { OnErr result (Keeps (append_known (O.contents out.old) gathered.old.items)
        (append_known (O.contents out.new) gathered.new.items)) }
    ensures grown { Extends (O.contents out.old) (O.contents out.new) }
    ensures counted { CountsLine (O.failed out.old) (O.failed out.new) result }
{
    if text.len() <= ROOM.saturating_sub(gathered.len()) {
        return push(gathered, text);
    }
    match write_gathered(out, gathered) {
        Ok(()) => push(gathered, text),
        Err(_) => Err(LineFault::Unwritten),
    }
}

/// Appends a text to what is gathered.
fn push(gathered: &mut Vec<u8>, text: &str) -> Result<(), LineFault>
    ensures written { OnOk result (gathered.new.items ≡ gathered.old.items ++ text.now) }
    ensures missed { OnErr result (gathered.new.items ≡ gathered.old.items) }
    ensures short { IfErr result (λ fault. fault ≡ LineFault.Memory) }
{
    match gathered.extend_from_slice(text.as_bytes()) {
        Ok(()) => Ok(()),
        Err(AllocError) => Err(LineFault::Memory),
    }
}

/// Writes what is gathered. What can't be written stays gathered.
fn write_gathered<O: Sink>(out: &mut O, gathered: &mut Vec<u8>) -> io::Result<()>
    ensures none { OnOk result (gathered.new.items ≡ []) }
    ensures bytes { Keeps (append_known (O.contents out.old) gathered.old.items)
        (append_known (O.contents out.new) gathered.new.items) }
    ensures grown { Extends (O.contents out.old) (O.contents out.new) }
    ensures counted { CountsErrors (O.failed out.old) (O.failed out.new) result }
{
    while !gathered.is_empty() {
        write_some(out, gathered)?;
    }
    Ok(())
}

/// Writes as much of what is gathered as the writer takes at once.
fn write_some<O: Sink>(out: &mut O, gathered: &mut Vec<u8>) -> io::Result<()>
    requires { 0 < length gathered.old.items }
    ensures less { OnOk result (length gathered.new.items < length gathered.old.items) }
    ensures bytes { Keeps (append_known (O.contents out.old) gathered.old.items)
        (append_known (O.contents out.new) gathered.new.items) }
    ensures grown { Extends (O.contents out.old) (O.contents out.new) }
    ensures counted { CountsErrors (O.failed out.old) (O.failed out.new) result }
{
    match put_again(gathered.as_slice(), out) {
        Ok(0) => Err(io::Error::from(ErrorKind::WriteZero)),
        Ok(n) => {
            drop_front(gathered, n);
            Ok(())
        }
        Err(fault) => Err(fault),
    }
}

/// Drops the first `n` bytes.
fn drop_front(gathered: &mut Vec<u8>, n: usize)
    requires { n ≤ vec_len gathered.old }
    ensures { gathered.new.items ≡ drop n gathered.old.items }
{
    let rest = gathered.len() - n;
    gathered.rotate_left(n);
    gathered.truncate(rest);
}

/// Writes what is still gathered, flushes the writer, and returns whether both succeeded.
pub(crate) fn write_last<O: Sink>(out: &mut O, gathered: &mut Vec<u8>) -> bool
    ensures kept { Keeps (append_known (O.contents out.old) gathered.old.items)
        (append_known (O.contents out.new) gathered.new.items) }
    ensures grown { Extends (O.contents out.old) (O.contents out.new) }
    ensures all { result ≡ true → Keeps (append_known (O.contents out.old) gathered.old.items)
        (O.contents out.new) }
    ensures counted { MatchBool result (NoFewer (O.failed out.old) (O.failed out.new))
        (HasFailed (O.failed out.old) (O.failed out.new)) }
{
    match write_gathered(out, gathered) {
        Ok(()) => out.finish().is_ok(),
        Err(_) => false,
    }
}
