//! Files whose lockfiles are kept apart from all others.
//!
//! Cargo itself changes `Cargo.lock` during a call, so a journal can't say what it held. Where the
//! other files have a journal, writes of lockfiles don't go through it.

ghost use Rattle.std.specs.Prelude.{◌≡◌, ◌↔◌, Some, IfOk, IsTrue, IsSome, false};
ghost use Rattle.hack_files.specs.Files.{by_kind};
ghost use Rattle.hack_journal.specs.LockfilesApart.{is_lockfile, apart, KeepsLockfiles};
ghost use Rattle.hack_journal.specs.LockfilesApart.{KeepsOtherFiles};

use hack_files::fs::{FileFault, Files, counted};
use std::alloc::Global;
use std::io;

/// Files whose lockfiles are those of `B`, and all others those of `A`. Each call goes to one of
/// the two alone, by its path.
#[derive(Drop)]
pub struct Apart<A: Files, B: Files> {
    pub files: A,
    pub lockfiles: B,
    /// Whether a write of a lockfile was refused.
    pub is_unwritten: bool,
    failures: u64,
    /// Whether the last call went to the lockfiles.
    is_at_lockfiles: bool,
}

/// Returns whether a path is a lockfile's: its last part is `Cargo.lock`.
pub fn is_lockfile(path: &str) -> bool
    ensures { result ≡ is_lockfile path.now }
{
    path == "Cargo.lock" || path.ends_with("/Cargo.lock")
}

impl<A: Files, B: Files> Apart<A, B> {
    /// The files of both, with no failed call counted.
    pub fn new(files: A, lockfiles: B) -> Self
        ensures files { result.files ≡ files }
        ensures lockfiles { result.lockfiles ≡ lockfiles }
        ensures is_unwritten { result.is_unwritten ≡ false }
        ensures failures { result.failures ≡ 0 }
    {
        Apart {
            files,
            lockfiles,
            is_unwritten: false,
            failures: 0,
            is_at_lockfiles: false,
        }
    }
}

impl<A: Files, B: Files> Files for Apart<A, B> {
    ghost use Rattle.std.proofs.Common.{refl, ◌∙◌};
    ghost use Rattle.hack_journal.specs.FailedCalls.{LooksOrUnseen, ReadsOrUnseen};
    ghost use Rattle.hack_journal.specs.FileCalls.{OnlyLooks, GoesToOne, Puts, PutsByKind};
    ghost use Rattle.hack_journal.specs.Refusing.{AreJust, GrowsAsBoth, HoldsByKind, IsRefused};
    ghost use Rattle.hack_journal.specs.Refusing.{NotesRefusals, UnseenByKind};
    ghost use Rattle.hack_journal.specs.RefusingLaws.{both_more, both_none, both_or_not};
    ghost use Rattle.hack_journal.specs.RefusingLaws.{just_none, just_more, just_some};
    ghost use Rattle.hack_journal.specs.RefusingLaws.{notes_more, notes_same};

    ghost tells = { A.tells × B.tells };

    ghost whole = { A.whole × B.whole };

    // What `A` holds at paths of lockfiles never changes, nor what `B` holds at others, just what
    // failed in one of the two is counted, and it is noted whether `B` refused a write.
    ghost stays = { λ a b. A.stays a.files b.files × B.stays a.lockfiles b.lockfiles
        × (A.tells → KeepsLockfiles (A.bytes_at a.files) (A.bytes_at b.files))
        × GrowsAsBoth (A.failed a.files) (A.failed b.files)
        (B.failed a.lockfiles) (B.failed b.lockfiles) a.failures b.failures
        × (B.tells → KeepsOtherFiles (B.bytes_at a.lockfiles) (B.bytes_at b.lockfiles))
        × NotesRefusals B.Files a.lockfiles b.lockfiles a.is_unwritten b.is_unwritten };

    ghost stays_none = { λ a. (
      A.stays_none a.files,
      B.stays_none a.lockfiles,
      λ t q lock. refl,
      both_none (A.failed a.files) (B.failed a.lockfiles) a.failures,
      λ t q other. refl,
      notes_same B.Files a.lockfiles a.lockfiles a.is_unwritten (B.refuses_none a.lockfiles),
    ) };

    ghost stays_more = { λ a b c f g. (
      A.stays_more a.files b.files c.files f.0 g.0,
      B.stays_more a.lockfiles b.lockfiles c.lockfiles f.1 g.1,
      λ t q lock. g.2 t q lock ∙ f.2 t q lock,
      both_more _ _ _ _ _ _ _ _ _ f.3 g.3,
      λ t q other. g.4 t q other ∙ f.4 t q other,
      notes_more B.Files a.lockfiles b.lockfiles c.lockfiles _ _ _ f.5 g.5,
    ) };

    // Each of these paths was refused by those files that it goes to.
    ghost refuses = { λ old new paths.
        AreJust (HoldsByKind (IsRefused A.Files) (IsRefused B.Files)) paths old.failures new.failures };

    ghost refuses_none = { λ files. just_none (HoldsByKind (IsRefused A.Files) (IsRefused B.Files)) files.failures };

    ghost refuses_more = { λ a b c ps qs. just_more (HoldsByKind (IsRefused A.Files) (IsRefused B.Files))
        ps qs a.failures b.failures c.failures };

    ghost refuses_some = { λ a b grown. just_some (HoldsByKind (IsRefused A.Files) (IsRefused B.Files))
        a.failures b.failures grown };

    // Each of these paths was left unseen by those files that it goes to; or one of the two doesn't
    // tell what it holds.
    ghost unseen = { λ old new paths.
        AreJust (UnseenByKind A.Files B.Files) paths old.failures new.failures };

    ghost unseen_none = { λ files. just_none (UnseenByKind A.Files B.Files) files.failures };

    ghost unseen_more = { λ a b c ps qs. just_more (UnseenByKind A.Files B.Files)
        ps qs a.failures b.failures c.failures };

    ghost tells_or_not = { both_or_not A.tells B.tells A.tells_or_not B.tells_or_not };

    ghost bytes_at = { λ s. apart (A.bytes_at s.files) (B.bytes_at s.lockfiles) };

    // The order of changes is known in each of the two, not across them.
    ghost trace = { λ s. by_kind is_lockfile (B.trace s.lockfiles) (A.trace s.files) };

    ghost failed = { λ s. s.failures };

    fn read(&mut self, alloc: Global, path: &str) -> Result<Vec<u8>, FileFault>
        ensures looks { OnlyLooks ⟦<Apart<A, B> as Files>⟧ self.old self.new result }
        ensures bytes { IfOk result (λ bytes. A.tells × B.tells →
            apart (A.bytes_at self.old.files) (B.bytes_at self.old.lockfiles) path.now ≡
            Some bytes.items) }
        ensures unseen { ReadsOrUnseen ⟦<Apart<A, B> as Files>⟧ path.now self.old self.new result }
        ensures one { GoesToOne path.now self.old self.new }
    {
        let outcome = if is_lockfile(path) {
            self.is_at_lockfiles = true;
            self.lockfiles.read(alloc, path)
        } else {
            self.is_at_lockfiles = false;
            self.files.read(alloc, path)
        };
        counted(&mut self.failures, outcome)
    }

    fn write(&mut self, path: &str, bytes: &[u8]) -> Result<(), FileFault>
        ensures puts { Puts ⟦<Apart<A, B> as Files>⟧ path.now (Some bytes.now)
            self.old self.new result }
        ensures below { PutsByKind A.Files B.Files path.now bytes.now self.old self.new result }
        ensures one { GoesToOne path.now self.old self.new }
    {
        let outcome = if is_lockfile(path) {
            self.is_at_lockfiles = true;
            let put = self.lockfiles.write(path, bytes);
            self.is_unwritten |= put.is_err();
            put
        } else {
            self.is_at_lockfiles = false;
            self.files.write(path, bytes)
        };
        counted(&mut self.failures, outcome)
    }

    fn exists(&mut self, path: &str) -> Result<bool, FileFault>
        ensures looks { OnlyLooks ⟦<Apart<A, B> as Files>⟧ self.old self.new result }
        ensures there { IfOk result (λ there. A.tells × B.tells → IsTrue there ↔
            IsSome (apart (A.bytes_at self.old.files) (B.bytes_at self.old.lockfiles) path.now)) }
        ensures unseen_path { LooksOrUnseen ⟦<Apart<A, B> as Files>⟧ path.now
            self.old self.new result }
        ensures one { GoesToOne path.now self.old self.new }
    {
        let outcome = if is_lockfile(path) {
            self.is_at_lockfiles = true;
            self.lockfiles.exists(path)
        } else {
            self.is_at_lockfiles = false;
            self.files.exists(path)
        };
        counted(&mut self.failures, outcome)
    }

    fn failures(&self) -> u64 {
        self.failures
    }

    /// That of the files to which the last call went, if they have one.
    fn reason(&self) -> Option<io::Error> {
        if self.is_at_lockfiles {
            return self.lockfiles.reason().or(self.files.reason());
        }
        self.files.reason().or(self.lockfiles.reason())
    }
}
