//! What the program asks of a file system. Code works with any `Files`: the disk, files in memory,
//! or files that fail when a test wants it.

ghost use Rattle.std.specs.Prelude.{◌≡◌, ◌↔◌, ◌⊎◌, [], ◌∷◌, ◌++◌, List, ℕ, Some, None};
ghost use Rattle.std.specs.Prelude.{string_bytes, IfOk, IfErr, OnOk, OnErr, IsTrue, IsSome};
ghost use Rattle.hack_files.specs.Files.{Contents, CountsFailedCall, Trace};
ghost use Rattle.hack_base.specs.Counters.{GrowsBy};
ghost use Rattle.hack_files.specs.Files.{KeepsOthers, KeepsAll, Makes, MakesOrNot, puts, removes};
ghost use Rattle.hack_files.specs.Files.{Grows, IsUnseenUnlessAbsent, refused_path};
ghost use Rattle.hack_files.specs.Faults.{IsOfRead, IsOfText, IsOfWrite, IsUnseenUnlessNoText};
ghost use Rattle.hack_files.specs.Faults.{file_text};

pub use crate::disk::Disk;
pub use crate::failing::{FailingFiles, FailingWriter};
pub use crate::memory::{FileChange, MemoryFiles};
use std::alloc::{AllocError, Global};
use std::error::Error;
use std::{fmt, io};

/// Why a call of a `Files` failed.
#[derive(Clone, Copy, Debug, PartialEq, Eq)]
pub enum FileFault {
    /// Memory was refused.
    Memory,
    /// The device failed, or nothing is at the path.
    Device,
}

/// A map from paths to bytes, whose calls can fail.
pub trait Files {
    /// Whether the type says what its paths hold, by `bytes_at`. Where it does, a call that fails
    /// changes at most its own path.
    ghost tells: { Type 0 };

    /// Whether it also says which changes were made, by `trace`, each of them whole or not at all.
    ghost whole: { Type 0 };

    /// The bytes at each path. It means something only where `tells` holds.
    ghost bytes_at: { Self → Contents };

    /// The changes that were made, in order; of files that are kept apart by their kind, in order
    /// within each kind. It means something only where `whole` holds.
    ghost trace: { Self → Trace };

    /// What each call keeps beyond that: a relation between the files before a call and after it.
    /// By `stays_none` and `stays_more` it holds over any number of calls.
    ghost stays: { Self → Self → Type 0 };

    /// How many calls have failed. A count of 2^64 - 1 doesn't go up any more.
    ghost failed: { Self → ℕ };

    /// Which writes and removals were refused between two states of the files: their paths, in
    /// order. Only such a call adds one, so who says which paths were refused can't claim more. By
    /// `refuses_none` and `refuses_more` it holds over any number of calls.
    ghost refuses: { Self → Self → List (List ℕ) → Type 0 };

    /// Which paths were unseen between two states of the files, in order: a read or a look failed
    /// there, though something is at the path, or it isn't known whether. A read of a path that
    /// holds nothing adds none, so nobody makes up a failure by it. By `unseen_none` and
    /// `unseen_more` it holds over any number of calls.
    ghost unseen: { Self → Self → List (List ℕ) → Type 0 };

    /// Returns the bytes at a path. A path that holds nothing is an error.
    fn read(&mut self, alloc: Global, path: &str) -> Result<Vec<u8>, FileFault>
        ensures stays { stays self.old self.new }
        ensures counted { CountsFailedCall (failed self.old) (failed self.new) result }
        ensures refused_none { refuses self.old self.new [] }
        ensures unseen { IsUnseenUnlessAbsent (unseen self.old self.new) tells
            (bytes_at self.old path.now) path.now result }
        ensures bytes { IfOk result (λ bytes. tells →
            bytes_at self.old path.now ≡ Some bytes.items) }
        ensures same { tells → KeepsAll (bytes_at self.old) (bytes_at self.new) }
        ensures untraced { whole → Makes [] (trace self.old) (trace self.new)
            (bytes_at self.old) (bytes_at self.new) };

    /// Puts these bytes at a path, in place of what is there.
    fn write(&mut self, path: &str, bytes: &[u8]) -> Result<(), FileFault>
        ensures stays { stays self.old self.new }
        ensures counted { CountsFailedCall (failed self.old) (failed self.new) result }
        ensures refused_path { refuses self.old self.new (refused_path result path.now) }
        ensures unseen_none { unseen self.old self.new [] }
        ensures written { OnOk result (tells → bytes_at self.new path.now ≡ Some bytes.now) }
        ensures others { tells → KeepsOthers path.now (bytes_at self.old) (bytes_at self.new) }
        ensures traced { OnOk result (whole → Makes (puts path.now bytes.now ∷ [])
            (trace self.old) (trace self.new) (bytes_at self.old) (bytes_at self.new)) }
        ensures refused { OnErr result (whole → MakesOrNot (puts path.now bytes.now)
            (trace self.old) (trace self.new) (bytes_at self.old) (bytes_at self.new)) };

    /// Returns whether a file, or a folder, is at a path.
    fn exists(&mut self, path: &str) -> Result<bool, FileFault>
        ensures stays { stays self.old self.new }
        ensures counted { CountsFailedCall (failed self.old) (failed self.new) result }
        ensures refused_none { refuses self.old self.new [] }
        ensures unseen_path { unseen self.old self.new (refused_path result path.now) }
        ensures there { IfOk result (λ there. tells →
            IsTrue there ↔ IsSome (bytes_at self.old path.now)) }
        ensures same { tells → KeepsAll (bytes_at self.old) (bytes_at self.new) }
        ensures untraced { whole → Makes [] (trace self.old) (trace self.new)
            (bytes_at self.old) (bytes_at self.new) };

    ghost stays_none: { (a : Self) → stays a a };

    ghost stays_more: { (a b c : Self) → stays a b → stays b c → stays a c };

    ghost refuses_none: { (a : Self) → refuses a a [] };

    ghost refuses_more: { (a b c : Self) (ps qs : List (List ℕ)) → refuses a b ps
        → refuses b c qs → refuses a c (ps ++ qs) };

    /// Whatever calls were made, some paths were refused, or none.
    ghost refuses_some: { (a b : Self) → Grows (failed a) (failed b)
        → (ps : List (List ℕ)) × refuses a b ps };

    ghost unseen_none: { (a : Self) → unseen a a [] };

    ghost unseen_more: { (a b c : Self) (ps qs : List (List ℕ)) → unseen a b ps
        → unseen b c qs → unseen a c (ps ++ qs) };

    /// It is known of each type whether it says what its paths hold.
    ghost tells_or_not: { tells ⊎ ¬ tells };

    /// How many calls have failed.
    fn failures(&self) -> u64
        ensures { result ≡ failed self.now };

    /// Why the last call that failed did so, as the system says it; none where it doesn't.
    fn reason(&self) -> Option<io::Error> {
        None
    }
}

/// What a journal needs of the files below it: it writes over bytes that it keeps, and removes its own
/// files. The files of a call are `Files` alone, so a call can do neither.
pub trait JournalFiles: Files {
    /// Writes bytes as `write` does. On the disk a write that is interrupted may leave the first of
    /// these bytes, before the rest of those that were there.
    fn overwrite(&mut self, path: &str, bytes: &[u8]) -> Result<(), FileFault>
        ensures stays { Self.stays self.old self.new }
        ensures counted { CountsFailedCall (Self.failed self.old) (Self.failed self.new) result }
        ensures refused_path { Self.refuses self.old self.new (refused_path result path.now) }
        ensures unseen_none { Self.unseen self.old self.new [] }
        ensures written { OnOk result (Self.tells
            → Self.bytes_at self.new path.now ≡ Some bytes.now) }
        ensures others { Self.tells
            → KeepsOthers path.now (Self.bytes_at self.old) (Self.bytes_at self.new) }
        ensures traced { OnOk result (Self.whole → Makes (puts path.now bytes.now ∷ [])
            (Self.trace self.old) (Self.trace self.new)
            (Self.bytes_at self.old) (Self.bytes_at self.new)) }
        ensures refused { OnErr result (Self.whole → MakesOrNot (puts path.now bytes.now)
            (Self.trace self.old) (Self.trace self.new)
            (Self.bytes_at self.old) (Self.bytes_at self.new)) }
    {
        self.write(path, bytes)
    }

    /// Removes what is at a path. A path that holds nothing is no error.
    fn remove(&mut self, path: &str) -> Result<(), FileFault>
        ensures stays { Self.stays self.old self.new }
        ensures counted { CountsFailedCall (Self.failed self.old) (Self.failed self.new) result }
        ensures refused_path { Self.refuses self.old self.new (refused_path result path.now) }
        ensures unseen_none { Self.unseen self.old self.new [] }
        ensures removed { OnOk result (Self.tells → Self.bytes_at self.new path.now ≡ None) }
        ensures others { Self.tells
            → KeepsOthers path.now (Self.bytes_at self.old) (Self.bytes_at self.new) }
        ensures traced { OnOk result (Self.whole → Makes (removes path.now ∷ [])
            (Self.trace self.old) (Self.trace self.new)
            (Self.bytes_at self.old) (Self.bytes_at self.new)) }
        ensures refused { OnErr result (Self.whole → MakesOrNot (removes path.now)
            (Self.trace self.old) (Self.trace self.new)
            (Self.bytes_at self.old) (Self.bytes_at self.new)) };
}

/// Why a file can't be read or written. Each value but `Memory` has the path.
#[derive(Debug, Drop, PartialEq, Eq)]
pub enum FsFault {
    /// The device failed, or nothing is at the path.
    Read(String),
    /// The device failed.
    Write(String),
    /// The bytes are not UTF-8.
    NotText(String),
    Memory,
}

impl FsFault {
    /// The text: what stands before the path, the path, and what stands behind it.
    pub(crate) fn parts(&self) -> (&str, &str, &str)
        ensures { result.0.now ++ (result.1.now ++ result.2.now) ≡ file_text self.now }
    {
        match self {
            FsFault::Read(path) => ("failed to read from file `", path.as_str(), "`"),
            FsFault::Write(path) => ("failed to write to file `", path.as_str(), "`"),
            FsFault::NotText(path) => ("file `", path.as_str(), "` is not UTF-8 text"),
            FsFault::Memory => ("out of memory", "", ""),
        }
    }
}

/// Written out, so that the texts are proved.
impl fmt::Display for FsFault {
    ghost use Rattle.hack_files.specs.Faults.{file_text};

    ghost output = { λ fault. Some (file_text fault) };

    fn fmt<W: fmt::Write>(&self, f: &mut fmt::Formatter<W>) -> fmt::Result {
        let (before, name, after) = self.parts();
        write!(f, "{before}{name}{after}")
    }
}

impl Error for FsFault {}

/// Counts one more failure of files. A count at its greatest value stays.
pub fn count_failure(failures: &mut u64)
    ensures { GrowsBy 1 failures.old failures.new }
{
    *failures = failures.saturating_add(1);
}

/// The outcome of a call of files, which is counted where it is an error.
pub fn counted<T: Drop>(failures: &mut u64, outcome: Result<T, FileFault>) -> Result<T, FileFault>
    ensures same { result ≡ outcome }
    ensures counted { CountsFailedCall failures.old failures.new outcome }
{
    if outcome.is_err() {
        count_failure(failures);
    }
    outcome
}

impl From<AllocError> for FsFault {
    ghost use Rattle.hack_files.specs.declared.fs.FsFault.TheVariants.{Memory};

    ghost from_gives = { λ _ e. e ≡ Memory };

    fn from(_e: AllocError) -> FsFault {
        FsFault::Memory
    }
}

/// The error of a failed read, from what the files returned.
fn read_fault(alloc: Global, path: &str, fault: FileFault) -> FsFault
    ensures { IsOfRead path.now result }
{
    match fault {
        FileFault::Memory => FsFault::Memory,
        FileFault::Device => match String::from_str(alloc, path) {
            Ok(path) => FsFault::Read(path),
            Err(_) => FsFault::Memory,
        },
    }
}

/// The error of a failed write, from what the files returned.
fn write_fault(alloc: Global, path: &str, fault: FileFault) -> FsFault
    ensures { IsOfWrite path.now result }
{
    match fault {
        FileFault::Memory => FsFault::Memory,
        FileFault::Device => match String::from_str(alloc, path) {
            Ok(path) => FsFault::Write(path),
            Err(_) => FsFault::Memory,
        },
    }
}

/// Returns the bytes of a file. The error is `Memory` where memory is refused, here or by `files`.
pub fn read<F: Files>(alloc: Global, files: &mut F, path: &str) -> Result<Vec<u8>, FsFault>
    ensures stays { F.stays files.old files.new }
    ensures counted { CountsFailedCall (F.failed files.old) (F.failed files.new) result }
    ensures refused_none { F.refuses files.old files.new [] }
    ensures unseen { IsUnseenUnlessAbsent (F.unseen files.old files.new) F.tells
        (F.bytes_at files.old path.now) path.now result }
    ensures bytes { IfOk result (λ bytes. F.tells →
        F.bytes_at files.old path.now ≡ Some bytes.items) }
    ensures same { F.tells → KeepsAll (F.bytes_at files.old) (F.bytes_at files.new) }
    ensures untraced { F.whole → Makes [] (F.trace files.old) (F.trace files.new)
        (F.bytes_at files.old) (F.bytes_at files.new) }
    ensures fault { IfErr result (IsOfRead path.now) }
{
    match files.read(alloc, path) {
        Ok(bytes) => Ok(bytes),
        Err(fault) => Err(read_fault(alloc, path, fault)),
    }
}

/// Returns the text of a file, which has to be UTF-8.
pub fn read_to_string<F: Files>(alloc: Global, files: &mut F, path: &str) -> Result<String, FsFault>
    ensures stays { F.stays files.old files.new }
    ensures ok { OnOk result (GrowsBy 0 (F.failed files.old) (F.failed files.new)) }
    ensures refused_none { F.refuses files.old files.new [] }
    ensures unseen { IsUnseenUnlessNoText (F.unseen files.old files.new) F.tells
        (F.bytes_at files.old path.now) path.now result }
    ensures text { IfOk result (λ text. F.tells →
        F.bytes_at files.old path.now ≡ Some (string_bytes text)) }
    ensures same { F.tells → KeepsAll (F.bytes_at files.old) (F.bytes_at files.new) }
    ensures untraced { F.whole → Makes [] (F.trace files.old) (F.trace files.new)
        (F.bytes_at files.old) (F.bytes_at files.new) }
    ensures fault { IfErr result (IsOfText path.now F.tells (F.bytes_at files.old path.now)
        (F.failed files.old) (F.failed files.new)) }
{
    let bytes = read(alloc, files, path)?;
    match String::from_utf8(bytes) {
        Ok(text) => Ok(text),
        Err(_) => Err(FsFault::NotText(String::from_str(alloc, path)?)),
    }
}

/// Returns whether something is at a path. Where the files can't say, the error is `Read`, or
/// `Memory` where memory is refused.
pub fn exists<F: Files>(alloc: Global, files: &mut F, path: &str) -> Result<bool, FsFault>
    ensures stays { F.stays files.old files.new }
    ensures counted { CountsFailedCall (F.failed files.old) (F.failed files.new) result }
    ensures refused_none { F.refuses files.old files.new [] }
    ensures unseen_path { F.unseen files.old files.new (refused_path result path.now) }
    ensures there { IfOk result (λ there. F.tells →
        IsTrue there ↔ IsSome (F.bytes_at files.old path.now)) }
    ensures same { F.tells → KeepsAll (F.bytes_at files.old) (F.bytes_at files.new) }
    ensures untraced { F.whole → Makes [] (F.trace files.old) (F.trace files.new)
        (F.bytes_at files.old) (F.bytes_at files.new) }
    ensures fault { IfErr result (IsOfRead path.now) }
{
    match files.exists(path) {
        Ok(there) => Ok(there),
        Err(fault) => Err(read_fault(alloc, path, fault)),
    }
}

/// Puts these bytes into a file, in place of what it holds. The error is `Memory` where memory is
/// refused, here or by `files`.
pub fn write<F: Files>(
    alloc: Global,
    files: &mut F,
    path: &str,
    bytes: &[u8],
) -> Result<(), FsFault>
    ensures stays { F.stays files.old files.new }
    ensures counted { CountsFailedCall (F.failed files.old) (F.failed files.new) result }
    ensures refused_path { F.refuses files.old files.new (refused_path result path.now) }
    ensures unseen_none { F.unseen files.old files.new [] }
    ensures written { OnOk result (F.tells → F.bytes_at files.new path.now ≡ Some bytes.now) }
    ensures others { F.tells → KeepsOthers path.now (F.bytes_at files.old) (F.bytes_at files.new) }
    ensures traced { OnOk result (F.whole → Makes (puts path.now bytes.now ∷ [])
        (F.trace files.old) (F.trace files.new) (F.bytes_at files.old) (F.bytes_at files.new)) }
    ensures refused { OnErr result (F.whole → MakesOrNot (puts path.now bytes.now)
        (F.trace files.old) (F.trace files.new) (F.bytes_at files.old) (F.bytes_at files.new)) }
    ensures fault { IfErr result (IsOfWrite path.now) }
{
    match files.write(path, bytes) {
        Ok(()) => Ok(()),
        Err(fault) => Err(write_fault(alloc, path, fault)),
    }
}
