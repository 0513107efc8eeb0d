//! Files that are restored: what they hold is kept before they are edited, and written back at the
//! end.

ghost use Rattle.std.specs.Prelude.{◌≡◌, ◌<◌, ◌↔◌, ◌⊎◌, [], ◌∷◌, ◌++◌, List, Some, cond, false};
ghost use Rattle.std.specs.Prelude.{true, option_map, OnOk, OnErr, IfErr, IsTrue};
ghost use Rattle.std.specs.Bool.{OnTrue, OnFalse};
ghost use Rattle.hack_files.specs.Files.{CountsFailedCall, KeepsAll, KeepsOthers};
ghost use Rattle.hack_base.specs.Counters.{GrowsBy};
ghost use Rattle.hack_base.specs.Streams.{WritesAll, stream_of};
ghost use Rattle.hack_files.specs.Files.{Makes, MakesOrNot, Change, refused_path};
ghost use Rattle.hack_files.specs.Faults.{IsOfWrite};
ghost use Rattle.hack_files.specs.Restore.{Kept, kept_file, registered_files, is_kept, kept_too};
ghost use Rattle.hack_files.specs.Restore.{Brings, ComesBackBut, Tried, write_of};
ghost use Rattle.hack_files.specs.WriteBacks.{SaysBack, back_lines, is_reported, refusal_lines};
ghost use Rattle.hack_files.specs.WriteBacks.{restoring_lines};

use crate::fs::{FileFault, Files, FsFault};
use crate::saved::Saved;
use hack_base::writes::Sink;
use hack_term::term::Term;
use std::alloc::{AllocError, Global};

/// The files that have to be written back. It has no `Drop`: `restore_all` has to consume it.
#[derive(Debug)]
pub struct Manager {
    needs_restore: bool,
    saved: Vec<Saved>,
}

impl Manager {
    /// A manager that keeps no file yet. Where `needs_restore` is false, `register` will keep none.
    pub fn new(alloc: Global, needs_restore: bool) -> Self
        ensures nothing { registered_files result ≡ [] }
        ensures needs { result.needs_restore ≡ needs_restore }
    {
        Manager {
            needs_restore,
            saved: Vec::new(alloc),
        }
    }

    /// Keeps the bytes of a file, where `needs_restore` is true.
    pub fn register(&mut self, alloc: Global, path: &str, bytes: &[u8]) -> Result<(), AllocError>
        ensures ok { OnOk result (registered_files self.new ≡ cond self.old.needs_restore
            (registered_files self.old ++ record { path = path.now; bytes = bytes.now } ∷ [])
            (registered_files self.old)) }
        ensures err { OnErr result (registered_files self.new ≡ registered_files self.old) }
        ensures needs { self.new.needs_restore ≡ self.old.needs_restore }
    {
        if self.needs_restore {
            return self.register_always(alloc, path, bytes);
        }
        Ok(())
    }

    /// Keeps the bytes of a file, also where `needs_restore` is false.
    pub fn register_always(
        &mut self,
        alloc: Global,
        path: &str,
        bytes: &[u8],
    ) -> Result<(), AllocError>
        ensures ok { OnOk result (registered_files self.new ≡
            registered_files self.old ++ record { path = path.now; bytes = bytes.now } ∷ []) }
        ensures err { OnErr result (registered_files self.new ≡ registered_files self.old) }
        ensures needs { self.new.needs_restore ≡ self.old.needs_restore }
    {
        self.saved.push(Saved::new(alloc, path, bytes)?)?;
        Ok(())
    }

    /// Returns whether the bytes of this path are kept already.
    #[tactic(auto, using(hack_base::proofs::Chains::mapped))]
    pub fn keeps(&self, path: &str) -> bool
        ensures { result ≡ is_kept (registered_files self.now) path.now }
    {
        self.saved.iter().any(|file| file.path.as_str() == path)
    }

    /// Keeps the bytes of a file, where `needs_restore` is true and its path is not kept yet.
    pub fn register_once(
        &mut self,
        alloc: Global,
        path: &str,
        bytes: &[u8],
    ) -> Result<(), AllocError>
        ensures ok { OnOk result (registered_files self.new ≡ cond self.old.needs_restore
            (kept_too (registered_files self.old) (record { path = path.now; bytes = bytes.now }))
            (registered_files self.old)) }
        ensures err { OnErr result (registered_files self.new ≡ registered_files self.old) }
        ensures needs { self.new.needs_restore ≡ self.old.needs_restore }
    {
        if self.keeps(path) {
            return Ok(());
        }
        self.register(alloc, path, bytes)
    }

    /// Writes back the file that was registered last, if there is one. The manager doesn't keep the
    /// file any more, also where its write fails.
    pub fn restore_last<F: Files>(&mut self, files: &mut F) -> Result<(), FsFault>
        ensures stays { F.stays files.old files.new }
        ensures counted { CountsFailedCall (F.failed files.old) (F.failed files.new) result }
        ensures unseen_none { F.unseen files.old files.new [] }
        ensures none { registered_files self.old ≡ [] → (result ≡ Ok tt) ×
            (registered_files self.new ≡ []) × F.refuses files.old files.new []
            × (F.tells → KeepsAll (F.bytes_at files.old) (F.bytes_at files.new)) }
        ensures left { (file : Kept) (earlier : List Kept) →
            registered_files self.old ≡ earlier ++ file ∷ [] → registered_files self.new ≡ earlier }
        ensures back { (file : Kept) (earlier : List Kept) →
            registered_files self.old ≡ earlier ++ file ∷ [] → IfErr result (IsOfWrite file.path)
            × F.refuses files.old files.new (refused_path result file.path)
            × (F.tells → KeepsOthers file.path (F.bytes_at files.old) (F.bytes_at files.new)
            × OnOk result (F.bytes_at files.new file.path ≡ Some file.bytes)) }
        ensures untraced { registered_files self.old ≡ [] → F.whole → Makes [] (F.trace files.old)
            (F.trace files.new) (F.bytes_at files.old) (F.bytes_at files.new) }
        ensures traced { OnOk result ((file : Kept) (earlier : List Kept) →
            registered_files self.old ≡ earlier ++ file ∷ [] → F.whole → Makes (write_of file ∷ [])
            (F.trace files.old) (F.trace files.new) (F.bytes_at files.old) (F.bytes_at files.new)) }
        ensures refused { OnErr result ((file : Kept) (earlier : List Kept) →
            registered_files self.old ≡ earlier ++ file ∷ [] → F.whole → MakesOrNot (write_of file)
            (F.trace files.old) (F.trace files.new) (F.bytes_at files.old) (F.bytes_at files.new)) }
        ensures needs { self.new.needs_restore ≡ self.old.needs_restore }
    {
        let Some(file) = self.saved.pop() else {
            return Ok(());
        };
        match files.write(file.path.as_str(), &file.bytes) {
            Ok(()) => Ok(()),
            Err(FileFault::Memory) => Err(FsFault::Memory),
            Err(FileFault::Device) => Err(FsFault::Write(file.path)),
        }
    }

    /// Writes each file back, in the order of registration and also after a failure. Returns how
    /// many writes failed, and reports an error for each of these, which is printed unless its path
    /// is `reported`: of that the caller has told already that it can't be written. In verbose mode
    /// it also prints a line before each write. A line that can't be printed is left out. It takes
    /// no memory, unless `files` does.
    pub fn restore_all<F: Files, W: Sink>(
        self,
        reported: Option<&str>,
        files: &mut F,
        term: &mut Term,
        err: &mut W,
    ) -> u64
        ensures stays { F.stays files.old files.new }
        ensures counted { GrowsBy result (F.failed files.old) (F.failed files.new) }
        ensures unseen_none { F.unseen files.old files.new [] }
        ensures restored { F.tells → Brings (registered_files self)
            (F.bytes_at files.old) (F.bytes_at files.new) result }
        ensures refused { ComesBackBut (F.refuses files.old files.new) F.tells
            (registered_files self) (F.bytes_at files.old) (F.bytes_at files.new) result }
        ensures tried { F.whole → (made : List Change) × Tried (registered_files self) made result
            × Makes made (F.trace files.old) (F.trace files.new)
            (F.bytes_at files.old) (F.bytes_at files.new) }
        ensures noted { IsTrue term.new.error ↔ (IsTrue term.old.error ⊎ (0 < result)) }
        ensures term { term.new ≡ record term.old { error = term.new.error } }

        ensures shown { SaysBack F.Files files.old files.new term.old.coloring term.old.verbose
            (option_map (λ text. text.now) reported.entry) (registered_files self) result
            (stream_of W.Sink err.old) (stream_of W.Sink err.new) }

        // Where no write failed, nothing is said but in verbose mode.
        ensures quiet { term.old.verbose ≡ false → result ≡ 0 → err.new ≡ err.old }
    {
        let Manager {
            needs_restore: _,
            saved,
        } = self;
        let mut failures = 0;
        for file in &saved {
            if !file.put_back(reported, files, term, err) {
                failures += 1;
            }
        }
        failures
    }
}

impl Saved {
    /// Writes the file back, prints the lines for it, and returns whether it was written. Its failure
    /// isn't printed where its path is the one that is reported otherwise.
    fn put_back<F: Files, W: Sink>(
        &self,
        reported: Option<&str>,
        files: &mut F,
        term: &mut Term,
        err: &mut W,
    ) -> bool
        ensures stays { F.stays files.old files.new }
        ensures counted { GrowsBy (cond result 0 1) (F.failed files.old) (F.failed files.new) }
        ensures refused_path { F.refuses files.old files.new
            (cond result [] ((kept_file self.now).path ∷ [])) }
        ensures unseen_none { F.unseen files.old files.new [] }
        ensures written { OnTrue result (F.tells →
            F.bytes_at files.new (kept_file self.now).path ≡ Some (kept_file self.now).bytes) }
        ensures others { F.tells →
            KeepsOthers (kept_file self.now).path (F.bytes_at files.old) (F.bytes_at files.new) }
        ensures traced { OnTrue result (F.whole → Makes (write_of (kept_file self.now) ∷ [])
            (F.trace files.old) (F.trace files.new) (F.bytes_at files.old) (F.bytes_at files.new)) }
        ensures refused { OnFalse result (F.whole → MakesOrNot (write_of (kept_file self.now))
            (F.trace files.old) (F.trace files.new) (F.bytes_at files.old) (F.bytes_at files.new)) }
        ensures noted { term.new ≡
            record term.old { error = cond result term.old.error true } }
        ensures shown { WritesAll (back_lines term.old.coloring term.old.verbose (option_map (λ text. text.now) reported.entry)
            (record { file = kept_file self.now; written = result }))
            (stream_of W.Sink err.old) (stream_of W.Sink err.new) }
        ensures quiet { OnTrue result (term.old.verbose ≡ false → err.new ≡ err.old) }
    {
        self.tell(term, err);
        match files.write(self.path.as_str(), &self.bytes) {
            Ok(()) => true,
            Err(_) => {
                self.tell_refusal(reported, term, err);
                false
            }
        }
    }

    /// In verbose mode, says that the file is written back.
    fn tell<W: Sink>(&self, term: &Term, err: &mut W)
        ensures told { WritesAll (restoring_lines term.now.coloring term.now.verbose (kept_file self.now).path)
            (stream_of W.Sink err.old) (stream_of W.Sink err.new) }
        ensures quiet { term.now.verbose ≡ false → err.new ≡ err.old }
    {
        if term.verbose {
            let _ = term.info(self.restoring.as_str(), err);
        }
    }

    /// Says that the file couldn't be written, unless its path is the one that is reported otherwise.
    fn tell_refusal<W: Sink>(&self, reported: Option<&str>, term: &mut Term, err: &mut W)
        ensures noted { term.new ≡ record term.old { error = true } }
        ensures told { WritesAll (refusal_lines term.old.coloring
            (option_map (λ text. text.now) reported.entry) (kept_file self.now).path)
            (stream_of W.Sink err.old) (stream_of W.Sink err.new) }
    {
        if self.is_reported(reported) {
            term.error = true;
        } else {
            let _ = term.error(self.failed.as_str(), err);
        }
    }

    /// Whether this is its path.
    fn is_reported(&self, reported: Option<&str>) -> bool
        ensures { result ≡ is_reported (option_map (λ text. text.now) reported.entry)
            (kept_file self.now).path }
    {
        match reported {
            Some(path) => path == self.path.as_str(),
            None => false,
        }
    }
}
