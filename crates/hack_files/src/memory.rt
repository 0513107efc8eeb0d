//! Files in memory, which keep each change that was made.

ghost use Rattle.std.specs.Prelude.{◌≡◌, ◌++◌, ◌∷◌, [], List, ℕ, None, OnOk, OnErr, length, map};
ghost use Rattle.std.proofs.Common.{inl};
ghost use Rattle.std.specs.Option.{option_map};
ghost use Rattle.hack_base.specs.Counters.{GrowsBy};
ghost use Rattle.hack_files.specs.Files.{GrowsAtLeastBy, in_order};
ghost use Rattle.hack_files.specs.RefusalLaws.{at_least_none, at_least_more, at_least_some};
ghost use Rattle.hack_files.specs.Memory.{held_after, change_of};

use crate::fs::{FileFault, Files, JournalFiles, count_failure};
use std::alloc::{AllocError, Global};

/// A path and the bytes that it holds from now on, or `None` where it was removed.
#[derive(Debug, Drop)]
pub struct FileChange {
    pub path: String,
    pub bytes: Option<Vec<u8>>,
}

/// Files in memory, for tests. What they hold is what their steps leave.
#[derive(Debug, Drop)]
pub struct MemoryFiles {
    alloc: Global,
    steps: Vec<FileChange>,
    failures: u64,
    /// How many calls memory was refused for.
    starved: u64,
}

/// What the path holds after these steps.
fn held_at<'a>(steps: &'a [FileChange], path: &str) -> Option<&'a [u8]>
    ensures { option_map (λ bytes. bytes.now) result ≡ held_after steps.now path.now }
{
    let mut found = None;
    for step in steps {
        if step.path.as_str() == path {
            found = step.bytes.as_deref();
        }
    }
    found
}

impl MemoryFiles {
    /// Files in which no path holds anything, with no failed call counted.
    pub fn new(alloc: Global) -> Self
        ensures steps { result.steps.items ≡ [] }
        ensures absent { (path : List ℕ) → held_after result.steps.items path ≡ None }
        ensures failures { result.failures ≡ 0 }
        ensures starved { result.starved ≡ 0 }
    {
        MemoryFiles {
            alloc,
            steps: Vec::new(alloc),
            failures: 0,
            starved: 0,
        }
    }

    /// The changes that were made, the first one first.
    pub fn steps(&self) -> &[FileChange]
        ensures { result.now ≡ self.now.steps.items }
    {
        &self.steps
    }

    /// How many calls memory was refused for. Where that grows by none, no path was unseen.
    pub fn starved(&self) -> u64
        ensures { result ≡ self.now.starved }
    {
        self.starved
    }

    /// Counts a call for which memory was refused.
    fn starve(&mut self) -> FileFault
        ensures failures { GrowsBy 1 self.old.failures self.new.failures }
        ensures starved { GrowsBy 1 self.old.starved self.new.starved }
        ensures steps { self.new.steps ≡ self.old.steps }
    {
        count_failure(&mut self.failures);
        count_failure(&mut self.starved);
        FileFault::Memory
    }

    /// Adds one change, or none where memory is refused.
    fn add(&mut self, path: &str, bytes: Option<&[u8]>) -> Result<(), AllocError>
        ensures ok { OnOk result (map change_of self.new.steps.items ≡
            map change_of self.old.steps.items ++ record {
              path = path.now;
              bytes = option_map (λ bytes. bytes.now) bytes.entry;
            } ∷ []) }
        ensures err { OnErr result (self.new.steps.items ≡ self.old.steps.items) }
        ensures failures { self.new.failures ≡ self.old.failures }
        ensures starved { self.new.starved ≡ self.old.starved }
    {
        let path = String::from_str(self.alloc, path)?;
        let bytes = match bytes {
            Some(bytes) => Some(bytes.to_vec(self.alloc)?),
            None => None,
        };
        self.steps.push(FileChange { path, bytes })?;
        Ok(())
    }
}

impl Files for MemoryFiles {
    ghost tells = { Unit {0} };

    ghost whole = { Unit {0} };

    ghost stays = { λ _ _. Unit {0} };

    ghost stays_none = { λ _. tt };

    ghost stays_more = { λ _ _ _ _ _. tt };

    ghost refuses = { λ old new paths. GrowsAtLeastBy (length paths) old.failures new.failures };

    ghost refuses_none = { λ files. at_least_none files.failures };

    ghost refuses_more = { λ a b c ps qs.
        at_least_more ps qs a.failures b.failures c.failures };

    ghost refuses_some = { λ a b grown. at_least_some a.failures b.failures grown };

    ghost unseen = { λ old new paths. GrowsAtLeastBy (length paths) old.starved new.starved };

    ghost unseen_none = { λ files. at_least_none files.starved };

    ghost unseen_more = { λ a b c ps qs.
        at_least_more ps qs a.starved b.starved c.starved };

    ghost tells_or_not = { inl tt };

    ghost bytes_at = { λ files. held_after files.steps.items };

    ghost trace = { λ files. in_order (map change_of files.steps.items) };

    ghost failed = { λ files. files.failures };

    fn read(&mut self, alloc: Global, path: &str) -> Result<Vec<u8>, FileFault> {
        let Some(bytes) = held_at(&self.steps, path) else {
            count_failure(&mut self.failures);
            return Err(FileFault::Device);
        };
        match bytes.to_vec(alloc) {
            Ok(copy) => Ok(copy),
            Err(_) => Err(self.starve()),
        }
    }

    fn write(&mut self, path: &str, bytes: &[u8]) -> Result<(), FileFault> {
        match self.add(path, Some(bytes)) {
            Ok(()) => Ok(()),
            Err(_) => Err(self.starve()),
        }
    }

    fn exists(&mut self, path: &str) -> Result<bool, FileFault> {
        Ok(held_at(&self.steps, path).is_some())
    }

    fn failures(&self) -> u64 {
        self.failures
    }
}

impl JournalFiles for MemoryFiles {
    fn remove(&mut self, path: &str) -> Result<(), FileFault> {
        match self.add(path, None) {
            Ok(()) => Ok(()),
            Err(_) => Err(self.starve()),
        }
    }
}
