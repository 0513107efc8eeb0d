//! The files of the operating system. No contract says what they hold; tests check it.

ghost use Rattle.std.specs.Prelude.{◌≡◌, [], None, length};
ghost use Rattle.std.proofs.Common.{inr};
ghost use Rattle.hack_files.specs.Files.{CountsFailedCall, GrowsAtLeastBy, in_order};
ghost use Rattle.hack_files.specs.RefusalLaws.{at_least_none, at_least_more, at_least_some};

use crate::fs::{FileFault, Files, JournalFiles, count_failure};
use std::alloc::Global;
use std::fs::{Metadata, OpenFile, OpenOptions};
use std::io::{ErrorKind, Read, Write};
use std::os::unix::fs::MetadataExt;
use std::path::PathBuf;
use std::{fs, io, rt};

/// The files of the operating system.
///
/// A file is written as a whole: its bytes are written to a new file in the same folder, and that
/// file is renamed to the path, with the permissions and owner of the one that was there. So neither
/// a full disk nor the end of the program during a write loses what the file held, or leaves a file
/// that is written in part. A write doesn't wait for the disk: what was written shortly before a
/// power cut may be lost. A symbolic link is followed. What can't be replaced is written in place:
/// the target of a broken link, a file with several hard links, a device, a mount point, and a file
/// in a folder where no new file can be made. The new file beside `a` is named `a.cargo-hack-0`; one
/// that is there already is removed, since a program left it that was killed.
///
/// `overwrite` writes over the bytes that are there: on many file systems a rename over a file, or
/// its truncation, has all its data written to the disk at once, which over a thousand files takes
/// seconds. The end of the program may leave the first of the new bytes, before the rest of the old.
#[derive(Drop)]
pub struct Disk<R: rt::Files + AllocGlobal + Drop> {
    rt: R,
    failures: u64,
    /// The error of the last call that failed.
    reason: Option<io::Error>,
}

/// A new file, with its name, and the path in the same folder that it will be renamed to.
#[derive(Drop)]
struct Successor<F: Drop> {
    file: F,
    name: String,
    target: PathBuf,
}

/// How many names are tried for the new file beside a path: at some of them may be what can't be
/// removed.
const NAMES: u64 = 16;

/// Makes the file of this name. One that is there already was left by a program that was killed, and
/// is removed.
fn create_anew<R: rt::Files>(rt: &R, name: &str) -> io::Result<R::File> {
    let mut options = OpenOptions::new();
    options.write(true).create_new(true);
    match options.open(rt, name) {
        Err(e) if e.kind() == ErrorKind::AlreadyExists => {
            let _ = fs::remove_file(rt, name);
            options.open(rt, name)
        }
        outcome => outcome,
    }
}

/// A new file in the target's folder, and its name. None where it can't be made.
fn new_file<R: rt::Files + AllocGlobal>(rt: &R, target: &str) -> Option<(R::File, String)> {
    for number in 0..NAMES {
        let name = format!(in rt.alloc(); "{target}.cargo-hack-{number}").ok()?;
        match create_anew(rt, name.as_str()) {
            Ok(file) => return Some((file, name)),
            Err(e) if e.kind() == ErrorKind::AlreadyExists => {}
            Err(_) => return None,
        }
    }
    None
}

/// Gives the file the owner and the permissions of another. The owner is set first, since a change
/// of it may drop permissions.
fn make_like<R: rt::Files>(rt: &R, file: &R::File, name: &str, other: &Metadata) -> io::Result<()> {
    let own = file.metadata()?;
    let is_owned_so = own.uid() == other.uid() && own.gid() == other.gid();
    if is_owned_so && own.mode() == other.mode() {
        return Ok(());
    }
    if !is_owned_so {
        rt.chown(name, Some(other.uid()), Some(other.gid()))?;
    }
    file.set_permissions(other.permissions())
}

/// A new file for a path at which nothing is, not even a broken link. None where it can't be made.
fn first_at<R: rt::Files + AllocGlobal>(rt: &R, path: &str) -> Option<Successor<R::File>> {
    let target = PathBuf::from_str(rt.alloc(), path).ok()?;
    let (file, name) = new_file(rt, path)?;
    Some(Successor { file, name, target })
}

/// Whether it is a file with this one name.
fn is_plain(held: &Metadata) -> bool {
    held.is_file() && held.nlink() == 1
}

/// A new file that can replace the plain file at the target. None where it can't be made.
fn successor_of<R: rt::Files + AllocGlobal>(
    rt: &R,
    target: PathBuf,
    held: &Metadata,
) -> Option<Successor<R::File>> {
    // A file that may not be written is not to be replaced either.
    let mut options = OpenOptions::new();
    let _writable = options.write(true).open(rt, target.as_path()).ok()?;
    let (file, name) = new_file(rt, target.as_str())?;
    if make_like(rt, &file, name.as_str(), held).is_err() {
        let _ = fs::remove_file(rt, name.as_str());
        return None;
    }
    Some(Successor { file, name, target })
}

/// The same, after all links at the path are followed. None also where no plain file is there.
fn linked_at<R: rt::Files + AllocGlobal>(rt: &R, path: &str) -> Option<Successor<R::File>> {
    let target = fs::canonicalize(rt, path).ok()?;
    let held = fs::metadata(rt, target.as_path()).ok()?;
    if !is_plain(&held) {
        return None;
    }
    successor_of(rt, target, &held)
}

/// A new file for what the path is to hold. None where it is to be written in place.
fn successor_at<R: rt::Files + AllocGlobal>(rt: &R, path: &str) -> Option<Successor<R::File>> {
    match fs::symlink_metadata(rt, path) {
        // Most files are no links: their own path is the target.
        Ok(held) if is_plain(&held) => {
            successor_of(rt, PathBuf::from_str(rt.alloc(), path).ok()?, &held)
        }
        Ok(_) => linked_at(rt, path),
        Err(e) if e.kind() == ErrorKind::NotFound => first_at(rt, path),
        Err(_) => None,
    }
}

/// Writes the bytes to the new file, and renames it to its target; over a mount point, which no file can
/// be renamed to, they are written in place. Where the new file isn't renamed, it is removed.
fn replace<R: rt::Files>(rt: &R, successor: Successor<R::File>, bytes: &[u8]) -> io::Result<()> {
    let Successor {
        mut file,
        name,
        target,
    } = successor;
    let written = file.write_all(bytes);
    if written.is_ok() && fs::rename(rt, name.as_str(), target.as_path()).is_ok() {
        return Ok(());
    }
    let _ = fs::remove_file(rt, name.as_str());
    written?;
    write_in_place(rt, target.as_str(), bytes)
}

fn write_file<R: rt::Files + AllocGlobal>(rt: &R, path: &str, bytes: &[u8]) -> io::Result<()> {
    match successor_at(rt, path) {
        Some(successor) => replace(rt, successor, bytes),
        None => write_in_place(rt, path, bytes),
    }
}

/// Writes the bytes over those that are there, and makes a file only where there is none.
fn write_in_place<R: rt::Files>(rt: &R, path: &str, bytes: &[u8]) -> io::Result<()> {
    match write_over(rt, path, bytes) {
        Err(e) if e.kind() == ErrorKind::NotFound => fs::create(rt, path)?.write_all(bytes),
        outcome => outcome,
    }
}

/// Writes the bytes over those of the file at the path, which keeps its place on the disk. Where no
/// file is there, or it can't be written so, the file is written as a whole.
fn overwrite_file<R: rt::Files + AllocGlobal>(rt: &R, path: &str, bytes: &[u8]) -> io::Result<()> {
    match write_over(rt, path, bytes) {
        Ok(()) => Ok(()),
        Err(_) => write_file(rt, path, bytes),
    }
}

/// Writes the bytes over those of a file, and cuts off what is left of these. A device has no end.
fn write_over<R: rt::Files>(rt: &R, path: &str, bytes: &[u8]) -> io::Result<()> {
    let mut options = OpenOptions::new();
    let mut file = options.write(true).open(rt, path)?;
    file.write_all(bytes)?;
    if file.metadata()?.is_file() {
        file.set_len(bytes.len() as u64)?;
    }
    Ok(())
}

fn read_file<R: rt::Files>(rt: &R, alloc: Global, path: &str) -> io::Result<Vec<u8>> {
    let mut bytes = Vec::new(alloc);
    fs::open(rt, path)?.read_to_end(&mut bytes)?;
    Ok(bytes)
}

/// Whether nothing is at a path: its folder, or what its folder is in, may be none.
fn is_absence(error: &io::Error) -> bool {
    error.kind() == ErrorKind::NotFound || error.kind() == ErrorKind::NotADirectory
}

fn exists<R: rt::Files>(rt: &R, path: &str) -> io::Result<bool> {
    match fs::metadata(rt, path) {
        Ok(_) => Ok(true),
        Err(e) if is_absence(&e) => Ok(false),
        Err(e) => Err(e),
    }
}

fn remove_file<R: rt::Files>(rt: &R, path: &str) -> io::Result<()> {
    match fs::remove_file(rt, path) {
        Err(e) if is_absence(&e) => Ok(()),
        outcome => outcome,
    }
}

/// Counts a failed outcome, keeps its error, and says whether memory was refused or the device failed.
fn count_outcome<T: Drop>(
    outcome: io::Result<T>,
    failures: &mut u64,
    reason: &mut Option<io::Error>,
) -> Result<T, FileFault>
    ensures { CountsFailedCall failures.old failures.new result }
{
    match outcome {
        Ok(value) => Ok(value),
        Err(e) => {
            count_failure(failures);
            *reason = Some(e);
            if e.kind() == ErrorKind::OutOfMemory {
                return Err(FileFault::Memory);
            }
            Err(FileFault::Device)
        }
    }
}

impl<R: rt::Files + AllocGlobal + Drop> Disk<R> {
    /// The files of the operating system, with no failed call counted.
    pub fn new(rt: R) -> Self
        ensures { result.failures ≡ 0 }
    {
        Disk {
            rt,
            failures: 0,
            reason: None,
        }
    }
}

impl<R: rt::Files + AllocGlobal + Drop> Files for Disk<R> {
    ghost tells = { ⊥ };

    ghost whole = { ⊥ };

    ghost stays = { λ _ _. Unit {0} };

    ghost stays_none = { λ _. tt };

    ghost stays_more = { λ _ _ _ _ _. tt };

    ghost refuses = { λ old new paths. GrowsAtLeastBy (length paths) old.failures new.failures };

    ghost refuses_none = { λ files. at_least_none files.failures };

    ghost refuses_more = { λ a b c ps qs.
        at_least_more ps qs a.failures b.failures c.failures };

    ghost refuses_some = { λ a b grown. at_least_some a.failures b.failures grown };

    ghost unseen = { λ old new paths. GrowsAtLeastBy (length paths) old.failures new.failures };

    ghost unseen_none = { λ files. at_least_none files.failures };

    ghost unseen_more = { λ a b c ps qs.
        at_least_more ps qs a.failures b.failures c.failures };

    ghost tells_or_not = { inr (λ tells. tells) };

    ghost bytes_at = { λ _ _. None };

    ghost trace = { λ _. in_order [] };

    ghost failed = { λ files. files.failures };

    fn read(&mut self, alloc: Global, path: &str) -> Result<Vec<u8>, FileFault> {
        count_outcome(
            read_file(&self.rt, alloc, path),
            &mut self.failures,
            &mut self.reason,
        )
    }

    fn write(&mut self, path: &str, bytes: &[u8]) -> Result<(), FileFault> {
        count_outcome(
            write_file(&self.rt, path, bytes),
            &mut self.failures,
            &mut self.reason,
        )
    }

    fn exists(&mut self, path: &str) -> Result<bool, FileFault> {
        count_outcome(exists(&self.rt, path), &mut self.failures, &mut self.reason)
    }

    fn failures(&self) -> u64 {
        self.failures
    }

    fn reason(&self) -> Option<io::Error> {
        self.reason
    }
}

impl<R: rt::Files + AllocGlobal + Drop> JournalFiles for Disk<R> {
    fn overwrite(&mut self, path: &str, bytes: &[u8]) -> Result<(), FileFault> {
        count_outcome(
            overwrite_file(&self.rt, path, bytes),
            &mut self.failures,
            &mut self.reason,
        )
    }

    fn remove(&mut self, path: &str) -> Result<(), FileFault> {
        count_outcome(
            remove_file(&self.rt, path),
            &mut self.failures,
            &mut self.reason,
        )
    }
}
