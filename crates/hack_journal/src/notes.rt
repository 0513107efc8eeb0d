//! What a call has noted: its entries, and the paths of their files.
//!
//! The paths are made when the entries are added. So the files can be removed without memory.

ghost use Rattle.std.specs.Prelude.{◌≡◌, ◌⊎◌, ◌++◌, ◌+◌, ◌<◌, ◌^◌, [], ◌∷◌, IfOk, OnOk, OnErr};
ghost use Rattle.std.specs.Prelude.{IsTrue, length, string_bytes, false};
ghost use Rattle.hack_journal.specs.Journal.{Edit, edit_of, edits_of};
ghost use Rattle.hack_journal.specs.Rows.{file_at, is_of_journal};

use crate::journal::Entry;
use crate::place::{file_of, is_of_journal};
use std::alloc::{AllocError, Global};
use std::marker::Model;

/// The entries of a call, each of which has a file of the journal's row.
#[derive(Drop)]
pub struct Notes {
    journal: String,
    entries: Vec<Entry>,
    /// The paths of the files behind the first: the last one is of the file that comes next.
    later: Vec<String>,
}

impl Model for Notes {
    ghost use Rattle.std.specs.Prelude.{◌≡◌, length, string_bytes};
    ghost use Rattle.hack_base.specs.Names.{names_of};
    ghost use Rattle.hack_journal.specs.Journal.{edits_of};
    ghost use Rattle.hack_journal.specs.Rows.{Noted, later_files};

    ghost Value = { Noted };

    ghost view = { λ notes. record {
      journal = string_bytes notes.journal;
      entries = edits_of notes.entries.items;
    } };

    ghost invariant = { λ notes. names_of notes.later.items ≡
        later_files (string_bytes notes.journal) (length notes.entries.items) };
}

impl Notes {
    /// Nothing is noted in the journal at this path.
    pub fn new(alloc: Global, journal: String) -> Self
        ensures { result ≡ record { journal = string_bytes journal; entries = [] } }
    {
        Notes {
            journal,
            entries: Vec::new(alloc),
            later: Vec::new(alloc),
        }
    }

    /// The entries, in order.
    pub fn entries(&self) -> &[Entry]
        ensures { edits_of result.now ≡ self.now.entries }
    {
        &self.entries
    }

    /// Whether a path is set aside for the journal.
    pub fn is_of_journal(&self, path: &str) -> bool
        ensures { result ≡ is_of_journal self.now.journal path.now }
    {
        is_of_journal(self.journal.as_str(), path)
    }

    /// The path of the journal's first file.
    pub fn journal(&self) -> &str
        ensures { result.now ≡ self.now.journal }
    {
        self.journal.as_str()
    }

    /// The path of the file that comes next.
    pub fn next(&self) -> &str
        ensures path { result.now ≡ file_at self.now.journal (length self.now.entries) }
        ensures low { length self.now.entries < 2 ^ 64 }
    {
        let count = self.entries.len();
        if count == 0 {
            return self.journal.as_str();
        }
        self.later[count - 1].as_str()
    }

    /// The path of the file after that one.
    pub fn after_next(&self, alloc: Global) -> Result<String, AllocError>
        ensures path { IfOk result (λ path.
            string_bytes path ≡ file_at self.now.journal (length self.now.entries + 1)) }
        ensures low { length self.now.entries + 1 < 2 ^ 64 }
    {
        file_of(alloc, self.journal.as_str(), self.entries.len() as u64 + 1)
    }

    /// Adds an entry, whose file is the one that came next. The path is that of the file after it.
    pub fn push(&mut self, entry: Entry, path: String) -> Result<(), AllocError>
        requires { string_bytes path ≡ file_at self.old.journal (length self.old.entries + 1) }
        ensures journal { self.new.journal ≡ self.old.journal }
        ensures added { OnOk result (self.new.entries ≡ self.old.entries ++ edit_of entry ∷ []) }
        ensures kept { OnErr result (self.new.entries ≡ self.old.entries) }
    {
        self.entries.push(entry)?;
        if self.later.push(path).is_err() {
            let _ = self.entries.pop();
            return Err(AllocError);
        }
        Ok(())
    }

    /// Removes the last entry: its file comes next. Returns whether there was one.
    pub fn pop(&mut self) -> bool
        ensures journal { self.new.journal ≡ self.old.journal }
        ensures popped { (IsTrue result × ((last : Edit) ×
            (self.old.entries ≡ self.new.entries ++ last ∷ []))) ⊎
            ((result ≡ false) × (self.old.entries ≡ []) × (self.new.entries ≡ [])) }
    {
        let _ = self.later.pop();
        self.entries.pop().is_some()
    }
}
