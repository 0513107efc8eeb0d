//! Files that keep what they replace: what a path holds is first written to a journal.
//!
//! Wherever the program ends, each path holds what it held at first, or the journal has it, and
//! [`crate::recover::recover`] puts it back.
//!
//! A write is refused by the files below, or because the journal can't keep what it replaces: then an
//! [`Unkept`] is told of it. It keeps edits of manifests alone, since the next call restores nothing
//! for a journal that names anything else.

ghost use Rattle.std.specs.Prelude.{◌≡◌, ◌<◌, ◌+◌, [], ◌∷◌, ℕ, None, Some, length, Ok, false, true};
ghost use Rattle.std.specs.Prelude.{IfOk, OnOk, OnErr, IsTrue, IsSome, ◌↔◌, string_bytes};
ghost use Rattle.hack_files.specs.Files.{Contents, CountsFailedCall, KeepsOthers, KeepsAll};
ghost use Rattle.hack_files.specs.Files.{Makes, MakesOrNot, puts, refused_path};
ghost use Rattle.hack_journal.specs.Keeping.{FailsToChange, TellsItsOwn};
ghost use Rattle.hack_journal.specs.Rows.{spot_of, file_at, is_of_journal, KeepsBeside, RemovesOwn};
ghost use Rattle.hack_journal.specs.SafeFiles.{HoldsUnkept, SomeEntryHasBytes, AreBack};
ghost use Rattle.hack_journal.specs.SafeFiles.{IsJournaled, Stays, trace_besides, without};
ghost use Rattle.hack_journal.specs.Internal.{ShortensRow};
ghost use Rattle.hack_journal.specs.Refusing.{IsCounted, IsRefusedOrUnkept};

use crate::contents::are_back;
use crate::notes::Notes;
use crate::place::JournalPlace;
use crate::unkept::{Refusal, Unkept};
use hack_files::fs::{FileFault, Files, JournalFiles, count_failure, counted};
use std::alloc::Global;
use std::io;

/// Files over other files, with a journal. The journal is none of the files: paths that begin with
/// its own hold nothing, and can't be read or written.
///
/// Each edit adds a file to the journal's row, so its cost doesn't grow with the edits before it.
#[derive(Drop)]
pub struct Journaled<F: Files, U: Unkept> {
    pub(crate) alloc: Global,
    pub(crate) files: F,
    pub(crate) folder: String,
    pub(crate) notes: Notes,
    failures: u64,
    unkept: U,
}

impl<F: Files, U: Unkept> Journaled<F, U> {
    ghost use Rattle.hack_journal.specs.FileCalls.{spot_in};

    /// Files over these, of which nothing is kept yet, with no failed call counted. The journal is
    /// written to this place before the first change; one that is there already would be lost, so
    /// call `recover` first. `unkept` is told of each write that can't be kept.
    pub fn new(alloc: Global, files: F, place: JournalPlace, unkept: U) -> Self
        ensures place { spot_in result ≡ spot_of place }
        ensures files { result.files ≡ files }
        ensures unkept { result.unkept ≡ unkept }
        ensures failures { result.failures ≡ 0 }
        ensures begun { F.bytes_at files (string_bytes place.journal) ≡ None →
            IsJournaled (spot_in result) (F.bytes_at files)
            result.notes.entries (F.bytes_at result.files) }
    {
        Journaled {
            alloc,
            files,
            folder: place.folder,
            notes: Notes::new(alloc, place.journal),
            failures: 0,
            unkept,
        }
    }

    /// Returns the files below, and who was told of what couldn't be kept. A journal there stays.
    pub fn into_inner(self) -> (F, U)
        ensures files { result.0 ≡ self.files }
        ensures unkept { result.1 ≡ self.unkept }
    {
        (self.files, self.unkept)
    }
}

impl<F: JournalFiles, U: Unkept> Journaled<F, U> {
    ghost use Rattle.hack_journal.specs.FailedCalls.{FailsRemoval, FailsToEnd};
    ghost use Rattle.hack_journal.specs.FileCalls.{StaysJournaled, spot_in};

    /// Keeps what the path holds, and then writes these bytes over those that are there. What an entry
    /// has already needs no keeping. Where the write is cut, `recover` knows what it left by the
    /// entries of the path.
    fn change(&mut self, path: &str, bytes: &[u8]) -> Result<(), FileFault>
        ensures handed { F.stays self.old.files self.new.files }
        ensures journal { self.new.notes.journal ≡ self.old.notes.journal }
        ensures rest { self.new ≡ record self.old {
          files = self.new.files;
          notes = self.new.notes;
          unkept = self.new.unkept;
        } }
        ensures counted { IsCounted result (F.failed self.old.files) (F.failed self.new.files)
            (U.told self.old.unkept) (U.told self.new.unkept) }
        ensures why { OnErr result (IsRefusedOrUnkept F.Files U.Unkept path.now) }
        ensures unkept { TellsItsOwn F.Files U.Unkept (string_bytes self.old.folder)
            self.old.notes path.now bytes.now self.old.files self.new.files
            self.old.unkept self.new.unkept result }
        ensures sure { SomeEntryHasBytes self.old.notes.entries path.now (Some bytes.now) →
            is_of_journal self.old.notes.journal path.now ≡ false →
            F.refuses self.old.files self.new.files (refused_path result path.now) }
        ensures put { OnOk result (F.tells →
            without self.old.notes.journal (F.bytes_at self.new.files) path.now ≡ Some bytes.now) }
        ensures others { F.tells → KeepsOthers path.now
            (without self.old.notes.journal (F.bytes_at self.old.files))
            (without self.old.notes.journal (F.bytes_at self.new.files)) }
        ensures traced { OnOk result (F.whole → Makes (puts path.now bytes.now ∷ [])
            (trace_besides self.old.notes.journal (F.trace self.old.files))
            (trace_besides self.old.notes.journal (F.trace self.new.files))
            (without self.old.notes.journal (F.bytes_at self.old.files))
            (without self.old.notes.journal (F.bytes_at self.new.files))) }
        ensures refused { OnErr result (F.whole → MakesOrNot (puts path.now bytes.now)
            (trace_besides self.old.notes.journal (F.trace self.old.files))
            (trace_besides self.old.notes.journal (F.trace self.new.files))
            (without self.old.notes.journal (F.bytes_at self.old.files))
            (without self.old.notes.journal (F.bytes_at self.new.files))) }
        ensures stays { StaysJournaled F.Files self.old self.new }
        ensures cause { FailsToChange F.Files (string_bytes self.old.folder)
            self.old.notes path.now bytes.now self.old.files self.new.files result }
        ensures idle { F.tells → HoldsUnkept self.old.notes.entries (F.bytes_at self.old.files)
            path.now bytes.now → self.new.notes ≡ self.old.notes }
    {
        if self.notes.is_of_journal(path) {
            self.unkept.note(Refusal::of(path));
            return Err(FileFault::Device);
        }
        match self.keep(path, bytes) {
            Ok(()) => self.files.overwrite(path, bytes),
            Err(fault) => {
                self.unkept.note(Refusal::of(path));
                Err(fault)
            }
        }
    }

    /// Removes the row, from its last file on. The file that would come next may be there too, after
    /// a write that failed.
    fn remove_row(&mut self) -> Result<(), FileFault>
        ensures handed { F.stays self.old.files self.new.files }
        ensures journal { self.new.notes.journal ≡ self.old.notes.journal }
        ensures rest { self.new ≡
            record self.old { files = self.new.files; notes = self.new.notes } }
        ensures below { CountsFailedCall (F.failed self.old.files)
            (F.failed self.new.files) result }
        ensures row { FailsRemoval F.Files self.old.notes self.old.files self.new.files result }
        ensures gone { OnOk result (F.tells → (i : ℕ) → i < length self.old.notes.entries + 1 →
            F.bytes_at self.new.files (file_at self.old.notes.journal i) ≡ None) }
        ensures others { F.tells → KeepsBeside self.old.notes.journal
            (length self.old.notes.entries + 1)
            (F.bytes_at self.old.files) (F.bytes_at self.new.files) }
        ensures only { F.whole → RemovesOwn self.old.notes.journal (F.trace self.old.files)
            (F.trace self.new.files) (F.bytes_at self.old.files) (F.bytes_at self.new.files) }
        ensures stays { F.tells → F.whole → ShortensRow (spot_in self.old)
            self.old.notes.entries self.new.notes.entries
            (F.trace self.old.files) (F.trace self.new.files)
            (F.bytes_at self.old.files) (F.bytes_at self.new.files) }
    {
        self.files.remove(self.notes.next())?;
        if self.notes.pop() {
            self.remove_row()
        } else {
            Ok(())
        }
    }

    /// Removes the journal where each kept path holds again what it held at first: its row of
    /// files, from the last one on. Returns whether no journal is there: where it is false, a path
    /// holds something else. After an error the journal is still there, or it was removed where
    /// nothing was to be put back.
    #[tactic(auto, using(crate::proofs::CountLemmas::grows_then))]
    pub fn finish(&mut self) -> Result<bool, FileFault>
        ensures handed { F.stays self.old.files self.new.files }
        ensures place { spot_in self.new ≡ spot_in self.old }
        ensures counted { CountsFailedCall self.old.failures self.new.failures result }

        // It fails only where a path that it looks at was unseen, or a removal was refused.
        ensures below { CountsFailedCall (F.failed self.old.files)
            (F.failed self.new.files) result }
        ensures why { FailsToEnd F.Files self.old.notes self.old.files self.new.files result }
        ensures unkept { self.new.unkept ≡ self.old.unkept }
        // Nothing but the files of the row and the one that would come next is changed.
        ensures others { F.tells → KeepsBeside self.old.notes.journal
            (length self.old.notes.entries + 1)
            (F.bytes_at self.old.files) (F.bytes_at self.new.files) }
        ensures only { F.whole → RemovesOwn self.old.notes.journal (F.trace self.old.files)
            (F.trace self.new.files) (F.bytes_at self.old.files) (F.bytes_at self.new.files) }
        ensures stays { StaysJournaled F.Files self.old self.new }
        ensures gone { IfOk result (λ gone. IsTrue gone → F.tells →
            F.bytes_at self.new.files self.old.notes.journal ≡ None) }
        ensures back { IfOk result (λ gone. IsTrue gone → F.tells → (first : Contents) →
            IsJournaled (spot_in self.old) first
            self.old.notes.entries (F.bytes_at self.old.files) →
            KeepsAll first (F.bytes_at self.new.files)) }
        ensures needed { IfOk result (λ gone. (gone ≡ false) → F.tells →
            ¬ AreBack self.old.notes.entries (F.bytes_at self.old.files)) }
    {
        let there = self.files.exists(self.notes.journal());
        if !counted(&mut self.failures, there)? {
            return Ok(true);
        }
        let back = are_back(self.alloc, &mut self.files, self.notes.entries());
        if !counted(&mut self.failures, back)? {
            return Ok(false);
        }
        let removed = self.remove_row();
        counted(&mut self.failures, removed)?;
        Ok(true)
    }
}

impl<F: JournalFiles, U: Unkept> Files for Journaled<F, U> {
    ghost use Rattle.std.proofs.Common.{refl, ◌∙◌};
    ghost use Rattle.hack_files.specs.TraceLaws.{makes_none};
    ghost use Rattle.hack_journal.specs.SafeLaws.{stays_none, stays_join};
    ghost use Rattle.hack_journal.specs.FailedCalls.{LooksOrUnseen, ReadsOrUnseen};
    ghost use Rattle.hack_journal.specs.FileCalls.{OnlyLooks, Puts, spot_in};
    ghost use Rattle.hack_journal.specs.Refusing.{AreJust, GrowsWithin, IsUnseenOrUntold};
    ghost use Rattle.hack_journal.specs.RefusingLaws.{just_none, just_more, just_some};
    ghost use Rattle.hack_journal.specs.RefusingLaws.{within_none, within_more};

    ghost tells = { F.tells };

    ghost tells_or_not = { F.tells_or_not };

    ghost whole = { F.tells × F.whole };

    // Only what failed below, or couldn't be kept, is counted.
    ghost stays = { λ a b. (spot_in a ≡ spot_in b) ×
        (F.tells → F.whole → Stays (spot_in a) a.notes.entries b.notes.entries
        (F.trace a.files) (F.trace b.files) (F.bytes_at a.files) (F.bytes_at b.files)) ×
        F.stays a.files b.files ×
        GrowsWithin (F.failed a.files) (F.failed b.files)
        (U.told a.unkept) (U.told b.unkept) a.failures b.failures };

    ghost stays_none = { λ a. (
      refl,
      λ _ _. stays_none _ _ _ _ _ _
          (makes_none (F.trace a.files) (F.bytes_at a.files)),
      F.stays_none a.files,
      within_none (F.failed a.files) (U.told a.unkept) a.failures,
    ) };

    ghost stays_more = { λ a b c f g. (
      f.0 ∙ g.0,
      λ tells whole.
          stays_join _ _ _ b.notes.entries _ _ (F.trace b.files) _ _ (F.bytes_at b.files)
          _ f.0 (f.1 tells whole) (g.1 tells whole),
      F.stays_more a.files b.files c.files f.2 g.2,
      within_more _ _ _ _ _ _ _ _ _ f.3 g.3,
    ) };

    // Each of these paths was refused by the files below, or it couldn't be kept.
    ghost refuses = { λ old new paths.
        AreJust (IsRefusedOrUnkept F.Files U.Unkept) paths old.failures new.failures };

    ghost refuses_none = { λ files.
        just_none (IsRefusedOrUnkept F.Files U.Unkept) files.failures };

    ghost refuses_more = { λ a b c ps qs. just_more (IsRefusedOrUnkept F.Files U.Unkept)
        ps qs a.failures b.failures c.failures };

    ghost refuses_some = { λ a b grown. just_some (IsRefusedOrUnkept F.Files U.Unkept)
        a.failures b.failures grown };

    // Each of these paths was left unseen by the files below, or they don't tell what they hold.
    ghost unseen = { λ old new paths.
        AreJust (IsUnseenOrUntold F.tells F.Files) paths old.failures new.failures };

    ghost unseen_none = { λ files. just_none (IsUnseenOrUntold F.tells F.Files) files.failures };

    ghost unseen_more = { λ a b c ps qs. just_more (IsUnseenOrUntold F.tells F.Files)
        ps qs a.failures b.failures c.failures };

    ghost bytes_at = { λ files. without files.notes.journal (F.bytes_at files.files) };

    ghost trace = { λ files. trace_besides files.notes.journal (F.trace files.files) };

    ghost failed = { λ files. files.failures };

    fn read(&mut self, alloc: Global, path: &str) -> Result<Vec<u8>, FileFault>
        ensures looks { OnlyLooks ⟦<Journaled<F, U> as Files>⟧ self.old self.new result }
        ensures bytes { IfOk result (λ bytes. F.tells → without self.old.notes.journal
            (F.bytes_at self.old.files) path.now ≡ Some bytes.items) }
        ensures unseen { ReadsOrUnseen ⟦<Journaled<F, U> as Files>⟧ path.now
            self.old self.new result }
        // Not even a journal is written.
        ensures below { F.whole → Makes [] (F.trace self.old.files) (F.trace self.new.files)
            (F.bytes_at self.old.files) (F.bytes_at self.new.files) }
        // Nobody is told of a refused write, and of a read only where the path is the journal's.
        ensures unkept { is_of_journal self.old.notes.journal path.now ≡ false →
            self.new.unkept ≡ self.old.unkept }
        ensures told { is_of_journal self.old.notes.journal path.now ≡ true →
            U.reads self.old.unkept self.new.unkept }
    {
        if self.notes.is_of_journal(path) {
            self.unkept.note_read(Refusal::of(path));
            count_failure(&mut self.failures);
            return Err(FileFault::Device);
        }
        let outcome = self.files.read(alloc, path);
        counted(&mut self.failures, outcome)
    }

    fn write(&mut self, path: &str, bytes: &[u8]) -> Result<(), FileFault>
        ensures puts { Puts ⟦<Journaled<F, U> as Files>⟧ path.now (Some bytes.now)
            self.old self.new result }
        // It tells of what it refuses before it asks the files below, and of nothing else.
        ensures unkept { TellsItsOwn F.Files U.Unkept (string_bytes self.old.folder)
            self.old.notes path.now bytes.now self.old.files self.new.files
            self.old.unkept self.new.unkept result }
        // What an entry has already nothing but the files below can refuse.
        ensures sure { SomeEntryHasBytes self.old.notes.entries path.now (Some bytes.now) →
            is_of_journal self.old.notes.journal path.now ≡ false →
            F.refuses self.old.files self.new.files (refused_path result path.now) }
        // It fails for memory, or for one of these causes.
        ensures cause { FailsToChange F.Files (string_bytes self.old.folder) self.old.notes
            path.now bytes.now self.old.files self.new.files result }
        // What the path holds already needs no entry.
        ensures idle { F.tells → HoldsUnkept self.old.notes.entries (F.bytes_at self.old.files)
            path.now bytes.now → self.new.notes ≡ self.old.notes }
    {
        let outcome = self.change(path, bytes);
        counted(&mut self.failures, outcome)
    }

    fn exists(&mut self, path: &str) -> Result<bool, FileFault>
        ensures looks { OnlyLooks ⟦<Journaled<F, U> as Files>⟧ self.old self.new result }
        ensures there { IfOk result (λ there. F.tells → IsTrue there ↔ IsSome
            (without self.old.notes.journal (F.bytes_at self.old.files) path.now)) }
        ensures unseen_path { LooksOrUnseen ⟦<Journaled<F, U> as Files>⟧ path.now
            self.old self.new result }
        // Not even a journal is written.
        ensures below { F.whole → Makes [] (F.trace self.old.files) (F.trace self.new.files)
            (F.bytes_at self.old.files) (F.bytes_at self.new.files) }
        // Nobody is told of a refused write.
        ensures unkept { self.new.unkept ≡ self.old.unkept }
    {
        if self.notes.is_of_journal(path) {
            return Ok(false);
        }
        let outcome = self.files.exists(path);
        counted(&mut self.failures, outcome)
    }

    fn failures(&self) -> u64 {
        self.failures
    }

    fn reason(&self) -> Option<io::Error> {
        self.files.reason()
    }
}
