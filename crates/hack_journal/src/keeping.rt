//! How journaled files keep what a change replaces: an entry is made, and its file is added to the
//! journal's row. Each step says why it fails.

ghost use Rattle.std.specs.Prelude.{◌≡◌, ◌⊎◌, ◌<◌, ◌++◌, ◌+◌, ◌^◌, [], ◌∷◌, None, Some, length, Ok};
ghost use Rattle.std.specs.Prelude.{false, true, IfOk, OnOk, string_bytes};
ghost use Rattle.std.specs.Option.{option_map};
ghost use Rattle.hack_files.specs.Files.{KeepsAll, Makes, Grows};
ghost use Rattle.hack_files.specs.FailedCalls.{LookFailed};
ghost use Rattle.hack_journal.specs.Journal.{edit_of};
ghost use Rattle.hack_journal.specs.Keeping.{CannotAppend, CannotKeep, CannotLookAhead, FailsOf};
ghost use Rattle.hack_journal.specs.Keeping.{IsOther};
ghost use Rattle.hack_journal.specs.Rows.{file_at, is_of_journal};
ghost use Rattle.hack_journal.specs.SafeFiles.{HoldsUnkept, SomeEntryHasBytes, first_entry_of};
ghost use Rattle.hack_journal.specs.SafeFiles.{without};
ghost use Rattle.hack_journal.specs.Internal.{Hidden, IsHeld, IsNotable, RefusesNextAtMost};
ghost use Rattle.hack_journal.specs.Strangers.{is_edit_of_manifest};

use crate::contents::look;
use crate::entries::{copy, first, same, tells};
use crate::journal::{Entry, note_of};
use crate::journaled::Journaled;
use crate::strangers::edit_of_manifest;
use crate::unkept::Unkept;
use hack_files::fs::{FileFault, Files};

impl<F: Files, U: Unkept> Journaled<F, U> {
    ghost use Rattle.hack_journal.specs.FileCalls.{StaysJournaled};

    /// Returns what the path held before its first edit.
    #[tactic(auto, using(hack_files::proofs::FilesLemmas::trace_steps))]
    fn held_at_first(&mut self, path: &str) -> Result<Option<Vec<u8>>, FileFault>
        ensures handed { F.stays self.old.files self.new.files }
        ensures below { Grows (F.failed self.old.files) (F.failed self.new.files) }
        ensures refused_none { F.refuses self.old.files self.new.files [] }
        ensures rest { self.new ≡ record self.old { files = self.new.files } }
        ensures held { IfOk result (λ held. F.tells →
            IsHeld (first_entry_of self.old.notes.entries path.now)
            (F.bytes_at self.old.files path.now) (option_map (λ bytes. bytes.items) held)) }
        ensures same { F.tells →
            KeepsAll (F.bytes_at self.old.files) (F.bytes_at self.new.files) }
        ensures untraced { F.whole → Makes [] (F.trace self.old.files) (F.trace self.new.files)
            (F.bytes_at self.old.files) (F.bytes_at self.new.files) }
        ensures why { FailsOf F.Files (LookFailed F.Files path.now self.old.files self.new.files)
            self.old.files self.new.files result }
    {
        match first(self.notes.entries(), path) {
            Some(entry) => match copy(self.alloc, entry.held.as_deref()) {
                Ok(held) => Ok(held),
                Err(_) => Err(FileFault::Memory),
            },
            None => look(self.alloc, &mut self.files, path),
        }
    }

    /// Makes the entry of a path that is to hold these bytes. Unless it is of a manifest that was
    /// there, it is refused.
    fn entry(&mut self, path: &str, bytes: &[u8]) -> Result<Entry, FileFault>
        ensures handed { F.stays self.old.files self.new.files }
        ensures below { Grows (F.failed self.old.files) (F.failed self.new.files) }
        ensures refused_none { F.refuses self.old.files self.new.files [] }
        ensures rest { self.new ≡ record self.old { files = self.new.files } }
        ensures path { IfOk result (λ entry. (edit_of entry).path ≡ path.now) }
        ensures wrote { IfOk result (λ entry. (edit_of entry).wrote ≡ Some bytes.now) }
        ensures held { IfOk result (λ entry. F.tells →
            IsHeld (first_entry_of self.old.notes.entries path.now)
            (F.bytes_at self.old.files path.now) (edit_of entry).held) }
        ensures known { IfOk result (λ entry. is_edit_of_manifest (edit_of entry) ≡ true) }
        ensures same { F.tells →
            KeepsAll (F.bytes_at self.old.files) (F.bytes_at self.new.files) }
        ensures untraced { F.whole → Makes [] (F.trace self.old.files) (F.trace self.new.files)
            (F.bytes_at self.old.files) (F.bytes_at self.new.files) }
        ensures why { FailsOf F.Files (LookFailed F.Files path.now self.old.files self.new.files
            ⊎ IsOther F.Files self.old.notes path.now bytes.now self.old.files)
            self.old.files self.new.files result }
    {
        let held = self.held_at_first(path)?;
        edit_of_manifest(self.alloc, path, held, bytes)
    }

    /// Looks that the row will end behind the file that comes next, and returns the path there: what
    /// is there already would become part of the row.
    #[tactic(auto, using(hack_files::proofs::FilesLemmas::trace_steps))]
    fn look_ahead(&mut self) -> Result<String, FileFault>
        ensures handed { F.stays self.old.files self.new.files }
        ensures below { Grows (F.failed self.old.files) (F.failed self.new.files) }
        ensures refused_none { F.refuses self.old.files self.new.files [] }
        ensures rest { self.new ≡ record self.old { files = self.new.files } }
        ensures path { IfOk result (λ path. string_bytes path ≡
            file_at self.old.notes.journal (length self.old.notes.entries + 1)) }
        ensures absent { OnOk result (F.tells → F.bytes_at self.old.files
            (file_at self.old.notes.journal (length self.old.notes.entries + 1)) ≡ None) }
        ensures low { OnOk result (length self.old.notes.entries + 1 < 2 ^ 64) }
        ensures same { F.tells →
            KeepsAll (F.bytes_at self.old.files) (F.bytes_at self.new.files) }
        ensures untraced { F.whole → Makes [] (F.trace self.old.files) (F.trace self.new.files)
            (F.bytes_at self.old.files) (F.bytes_at self.new.files) }
        ensures why { FailsOf F.Files
            (CannotLookAhead F.Files self.old.notes self.old.files self.new.files)
            self.old.files self.new.files result }
    {
        let Ok(path) = self.notes.after_next(self.alloc) else {
            return Err(FileFault::Memory);
        };
        match self.files.exists(&path) {
            Ok(false) => Ok(path),
            Ok(true) => Err(FileFault::Device),
            Err(fault) => Err(fault),
        }
    }

    /// Adds a file to the row that keeps this entry.
    fn append(&mut self, entry: Entry) -> Result<(), FileFault>
        ensures handed { F.stays self.old.files self.new.files }
        ensures below { Grows (F.failed self.old.files) (F.failed self.new.files) }
        ensures refused { RefusesNextAtMost F.Files self.old.notes
            self.old.files self.new.files }
        ensures journal { self.new.notes.journal ≡ self.old.notes.journal }
        ensures rest { self.new ≡
            record self.old { files = self.new.files; notes = self.new.notes } }
        ensures added { OnOk result (self.new.notes.entries ≡
            self.old.notes.entries ++ edit_of entry ∷ []) }
        ensures others { F.tells → KeepsAll
            (without self.old.notes.journal (F.bytes_at self.old.files))
            (without self.old.notes.journal (F.bytes_at self.new.files)) }
        ensures hidden { F.whole → Hidden self.old.notes.journal
            (F.trace self.old.files) (F.trace self.new.files)
            (F.bytes_at self.old.files) (F.bytes_at self.new.files) }
        ensures stays { (F.tells → IsNotable self.old.notes.journal
            self.old.notes.entries (F.bytes_at self.old.files) (edit_of entry)) →
            StaysJournaled F.Files self.old self.new }
        ensures why { FailsOf F.Files (CannotAppend F.Files (string_bytes self.old.folder)
            self.old.notes (edit_of entry).path self.old.files self.new.files)
            self.old.files self.new.files result }
    {
        let text = note_of(self.alloc, self.folder.as_str(), &entry)?;
        let after = self.look_ahead()?;
        self.files.write(self.notes.next(), &text)?;
        match self.notes.push(entry, after) {
            Ok(()) => Ok(()),
            Err(_) => Err(FileFault::Memory),
        }
    }

    /// Keeps what the path holds before it is to hold these bytes: adds an entry to the journal, unless
    /// one of the path has these bytes already, or the path has held them all along. Then a call leaves
    /// nothing there that somebody else's change could be taken for.
    pub(crate) fn keep(&mut self, path: &str, bytes: &[u8]) -> Result<(), FileFault>
        ensures handed { F.stays self.old.files self.new.files }
        ensures below { Grows (F.failed self.old.files) (F.failed self.new.files) }
        ensures refused { RefusesNextAtMost F.Files self.old.notes
            self.old.files self.new.files }
        ensures journal { self.new.notes.journal ≡ self.old.notes.journal }
        ensures rest { self.new ≡
            record self.old { files = self.new.files; notes = self.new.notes } }
        ensures told { OnOk result (F.tells → SomeEntryHasBytes self.new.notes.entries path.now
            (Some bytes.now) ⊎ (F.bytes_at self.new.files path.now ≡ Some bytes.now)) }
        ensures sure { SomeEntryHasBytes self.old.notes.entries path.now (Some bytes.now) →
            (result ≡ Ok tt) × (self.new ≡ self.old) }
        ensures idle { F.tells → HoldsUnkept self.old.notes.entries (F.bytes_at self.old.files)
            path.now bytes.now → self.new.notes ≡ self.old.notes }
        ensures others { F.tells → KeepsAll
            (without self.old.notes.journal (F.bytes_at self.old.files))
            (without self.old.notes.journal (F.bytes_at self.new.files)) }
        ensures hidden { F.whole → Hidden self.old.notes.journal
            (F.trace self.old.files) (F.trace self.new.files)
            (F.bytes_at self.old.files) (F.bytes_at self.new.files) }
        ensures stays { is_of_journal self.old.notes.journal path.now ≡ false →
            StaysJournaled F.Files self.old self.new }
        ensures why { FailsOf F.Files (CannotKeep F.Files (string_bytes self.old.folder)
            self.old.notes path.now bytes.now self.old.files self.new.files)
            self.old.files self.new.files result }
    {
        if tells(self.notes.entries(), path, Some(bytes)) {
            return Ok(());
        }
        let entry = self.entry(path, bytes)?;
        if same(entry.held.as_deref(), Some(bytes)) {
            return Ok(());
        }
        self.append(entry)
    }
}
