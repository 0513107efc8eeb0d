//! Locks on the folders of the operating system. No contract says who has them; tests check it.

ghost use Rattle.std.specs.Prelude.{◌≡◌, [], None, false};

use crate::locks::{Holder, Locks};
use std::alloc::{AllocError, Global};
use std::fs::{File, OpenOptions, TryLockError};
use std::io::ErrorKind;
use std::time::{Clock, Duration};
use std::{fs, rt, thread};

/// How often a lock that another has is tried once more, ten milliseconds later: a guard has it
/// only while it restores.
const TRIES: u32 = 100;

/// Locks on folders of the operating system. What was taken ends with the value, and with the
/// program.
#[derive(Drop)]
pub struct FolderLocks<R: rt::Files<File = File> + Clock + AllocGlobal + Drop> {
    rt: R,
    held: Option<File>,
}

impl<R: rt::Files<File = File> + Clock + AllocGlobal + Drop> FolderLocks<R> {
    /// Locks by this handle of the runtime, of which none is taken.
    pub fn new(rt: R) -> Self
        ensures rt { result.rt ≡ rt }
        ensures held { result.held ≡ None }
    {
        FolderLocks { rt, held: None }
    }

    /// Takes the lock of an open folder, and returns who has it then.
    fn lock(&mut self, file: File) -> Holder {
        for _try in 0..TRIES {
            match file.try_lock() {
                Ok(()) => {
                    self.held = Some(file);
                    return Holder::Ours;
                }
                Err(TryLockError::WouldBlock) => {}
                Err(TryLockError::Error(_)) => return Holder::Unknown,
            }
            thread::sleep(&self.rt, Duration::from_millis(10));
        }
        Holder::Theirs
    }
}

impl<R: rt::Files<File = File> + Clock + AllocGlobal + Drop> Locks for FolderLocks<R> {
    ghost tells = { ⊥ };

    ghost shown = { λ _. record { takings = []; is_held = false } };

    ghost real = { λ _ folder. folder };

    fn real(&self, alloc: Global, folder: &str) -> Result<String, AllocError> {
        match fs::canonicalize(&self.rt, folder) {
            Ok(path) => String::from_str(alloc, path.as_str()),
            Err(e) if e.kind() == ErrorKind::OutOfMemory => Err(AllocError),
            Err(_) => String::from_str(alloc, folder),
        }
    }

    fn take(&mut self, _alloc: Global, folder: &str) -> Result<Holder, AllocError> {
        let mut options = OpenOptions::new();
        let file = match options.read(true).open(&self.rt, folder) {
            Ok(file) => file,
            Err(e) if e.kind() == ErrorKind::OutOfMemory => return Err(AllocError),
            Err(_) => return Ok(Holder::Unknown),
        };
        Ok(self.lock(file))
    }

    fn release(&mut self) {
        self.held = None;
    }
}
