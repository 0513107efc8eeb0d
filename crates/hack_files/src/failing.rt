//! Files and writers that fail once, for tests of what a failure leaves.

ghost use Rattle.std.specs.Prelude.{◌≡◌, ◌↔◌, IsTrue, cond, length};
ghost use Rattle.hack_base.specs.Counters.{GrowsBy};
ghost use Rattle.hack_files.specs.Files.{GrowsAtLeastBy, IsOwnOr};
ghost use Rattle.hack_files.specs.RefusalLaws.{at_least_none, at_least_more, at_least_some};
ghost use Rattle.hack_files.specs.RefusalLaws.{own_none, own_more};

use crate::fs::{FileFault, Files, JournalFiles, count_failure, counted};
use std::alloc::Global;
use std::io;
use std::io::{ErrorKind, Write};

/// Which call is the next one, and which one fails. The first call is call 1.
#[derive(Debug, Drop)]
struct Turns {
    next: u64,
    failing: u64,
}

impl Turns {
    /// There is no call 0, so with 0 no call fails.
    fn new(failing: u64) -> Turns
        ensures { result ≡ record { next = 1; failing = failing } }
    {
        Turns { next: 1, failing }
    }

    /// Counts the call that is made now, and returns whether it fails.
    fn fails(&mut self) -> bool
        ensures { IsTrue result ↔ (self.old.next ≡ self.old.failing) }
    {
        let now = self.next;
        self.next = now.saturating_add(1);
        now == self.failing
    }
}

/// Files that pass each call on to other files, but for one call, which fails: the first call is
/// call 1, and with 0 none fails. A write that fails in this way leaves its file empty, as a full
/// disk would.
#[derive(Drop)]
pub struct FailingFiles<F: Files> {
    inner: F,
    turns: Turns,
    failures: u64,
    /// How many of these were no failures of the other files.
    own: u64,
}

impl<F: Files> FailingFiles<F> {
    /// Files over others, of which the call with the number `failing`, counted from 1, fails; with
    /// 0 none does.
    pub fn new(inner: F, failing: u64) -> Self
        ensures inner { result.inner ≡ inner }
        ensures turns { result.turns ≡ record { next = 1; failing = failing } }
        ensures failures { result.failures ≡ 0 }
        ensures own { result.own ≡ 0 }
    {
        FailingFiles {
            inner,
            turns: Turns::new(failing),
            failures: 0,
            own: 0,
        }
    }

    /// The files that calls are passed on to.
    pub fn inner(&self) -> &F
        ensures { result.now ≡ self.now.inner }
    {
        &self.inner
    }

    /// Whether the call that is made now fails, which is counted.
    fn fails(&mut self) -> bool
        ensures failures { GrowsBy (cond result 1 0) self.old.failures self.new.failures }
        ensures own { GrowsBy (cond result 1 0) self.old.own self.new.own }
        ensures inner { self.new.inner ≡ self.old.inner }
        ensures turn { IsTrue result ↔ (self.old.turns.next ≡ self.old.turns.failing) }
    {
        if self.turns.fails() {
            count_failure(&mut self.failures);
            count_failure(&mut self.own);
            return true;
        }
        false
    }
}

impl<F: Files> Files for FailingFiles<F> {
    ghost tells = { F.tells };

    ghost whole = { ⊥ };

    ghost stays = { λ a b. F.stays a.inner b.inner };

    ghost stays_none = { λ a. F.stays_none a.inner };

    ghost stays_more = { λ a b c. F.stays_more a.inner b.inner c.inner };

    ghost refuses = { λ old new paths. GrowsAtLeastBy (length paths) old.failures new.failures };

    ghost refuses_none = { λ files. at_least_none files.failures };

    ghost refuses_more = { λ a b c ps qs.
        at_least_more ps qs a.failures b.failures c.failures };

    ghost refuses_some = { λ a b grown. at_least_some a.failures b.failures grown };

    // The other files left these paths unseen; or a call failed that was to fail here.
    ghost unseen = { λ old new paths.
        IsOwnOr (F.unseen old.inner new.inner paths) old.own new.own };

    ghost unseen_none = { λ files. own_none _ files.own (F.unseen_none files.inner) };

    ghost unseen_more = { λ a b c ps qs. own_more _ _ _ a.own b.own c.own
        (F.unseen_more a.inner b.inner c.inner ps qs) };

    ghost tells_or_not = { F.tells_or_not };

    ghost bytes_at = { λ files. F.bytes_at files.inner };

    ghost trace = { λ files. F.trace files.inner };

    ghost failed = { λ files. files.failures };

    fn read(&mut self, alloc: Global, path: &str) -> Result<Vec<u8>, FileFault> {
        if self.fails() {
            return Err(FileFault::Device);
        }
        let outcome = self.inner.read(alloc, path);
        counted(&mut self.failures, outcome)
    }

    fn write(&mut self, path: &str, bytes: &[u8]) -> Result<(), FileFault> {
        if self.fails() {
            let _ = self.inner.write(path, b"");
            return Err(FileFault::Device);
        }
        let outcome = self.inner.write(path, bytes);
        counted(&mut self.failures, outcome)
    }

    fn exists(&mut self, path: &str) -> Result<bool, FileFault> {
        if self.fails() {
            return Err(FileFault::Device);
        }
        let outcome = self.inner.exists(path);
        counted(&mut self.failures, outcome)
    }

    fn failures(&self) -> u64 {
        self.failures
    }

    fn reason(&self) -> Option<io::Error> {
        self.inner.reason()
    }
}

impl<F: JournalFiles> JournalFiles for FailingFiles<F> {
    fn remove(&mut self, path: &str) -> Result<(), FileFault> {
        if self.fails() {
            return Err(FileFault::Device);
        }
        let outcome = self.inner.remove(path);
        counted(&mut self.failures, outcome)
    }
}

/// A writer that passes each write on to another, but for one write, which fails: the first write
/// is write 1, and with 0 none fails. Writes after the failed one are passed on again.
#[derive(Drop)]
pub struct FailingWriter<W: Write> {
    inner: W,
    turns: Turns,
}

impl<W: Write> FailingWriter<W> {
    /// A writer over another one, of which the call with the number `failing`, counted from 1,
    /// fails; with 0 none does.
    pub fn new(inner: W, failing: u64) -> Self
        ensures inner { result.inner ≡ inner }
        ensures turns { result.turns ≡ record { next = 1; failing = failing } }
    {
        FailingWriter {
            inner,
            turns: Turns::new(failing),
        }
    }

    /// The writer that writes are passed on to.
    pub fn inner(&self) -> &W
        ensures { result.now ≡ self.now.inner }
    {
        &self.inner
    }
}

impl<W: Write> Write for FailingWriter<W> {
    ghost contents = { λ writer. W.contents writer.inner };

    fn write(&mut self, buf: &[u8]) -> io::Result<usize> {
        if self.turns.fails() {
            return Err(io::Error::from(ErrorKind::StorageFull));
        }
        self.inner.write(buf)
    }

    fn flush(&mut self) -> io::Result<()> {
        self.inner.flush()
    }
}
