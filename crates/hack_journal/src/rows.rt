//! Reads a journal: the entries of all files of its row.

ghost use Rattle.std.specs.Prelude.{◌≡◌, ◌++◌, [], ℕ, None, Some, IfOk, IfErr, OnOk, IsSome, true};
ghost use Rattle.std.specs.Prelude.{false, string_bytes};
ghost use Rattle.hack_base.specs.Counters.{GrowsBy};
ghost use Rattle.hack_files.specs.Files.{KeepsAll, Makes};
ghost use Rattle.hack_journal.specs.Journal.{edits_of};
ghost use Rattle.hack_journal.specs.Rows.{IsRowRead, file_at, placed, spot_of};
ghost use Rattle.hack_journal.specs.Recovery.{AreOfCall, CountsRecoverFault, IsFailureCounted};
ghost use Rattle.hack_journal.specs.Recovery.{IsReached, IsWhyUnread};
ghost use Rattle.hack_journal.specs.FailedCalls.{FailsOnlySo};
ghost use Rattle.hack_journal.specs.Internal.{IsFilesFault, IsReadFault, IsReadMore, IsWhyTorn};
ghost use Rattle.hack_journal.specs.Internal.{NamesNoJournal};

use crate::contents::look;
use crate::entries::are_of_call;
use crate::journal::{Entry, JournalFault, read_back};
use crate::place::{JournalPlace, absolute, file_of};
use crate::recover::RecoverFault;
use hack_files::fs::{FileFault, Files, FsFault};
use std::alloc::{AllocError, Global};

/// What was read of a journal: the entries of all its files, in order, with absolute paths, and how
/// many files it has.
#[derive(Debug, Drop)]
pub struct Row {
    pub entries: Vec<Entry>,
    pub count: u64,
}

/// The error of reading a path.
pub(crate) fn read_fault(alloc: Global, path: &str, fault: FileFault) -> RecoverFault
    ensures kind { IsFilesFault result }
    ensures read { IsReadFault path.now result }
{
    match fault {
        FileFault::Memory => RecoverFault::Memory,
        FileFault::Device => match String::from_str(alloc, path) {
            Ok(path) => RecoverFault::Files(FsFault::Read(path)),
            Err(_) => RecoverFault::Memory,
        },
    }
}

/// The error of a text that is no journal.
fn no_journal(alloc: Global, journal: &str) -> RecoverFault
    ensures failures { (old new : ℕ) → GrowsBy 0 old new → CountsRecoverFault old new result }
    ensures kind { NamesNoJournal journal.now result }
{
    match String::from_str(alloc, journal) {
        Ok(journal) => RecoverFault::NotJournal(journal),
        Err(_) => RecoverFault::Memory,
    }
}

/// Adds these entries to others, with the paths that theirs lead to.
fn place_all(
    alloc: Global,
    folder: &str,
    raw: Vec<Entry>,
    entries: &mut Vec<Entry>,
) -> Result<(), AllocError>
    ensures { OnOk result (edits_of entries.new.items ≡
        edits_of entries.old.items ++ placed folder.now (edits_of raw.items)) }
{
    for entry in raw {
        let Entry { path, held, wrote } = entry;
        let path = absolute(alloc, folder, &path)?;
        entries.push(Entry { path, held, wrote })?;
    }
    Ok(())
}

/// Reads a file of the row, and adds its entries to those of the files before it. Returns whether it
/// is there.
#[tactic(auto, using(crate::proofs::FailedLemmas::call_steps))]
fn read_file<F: Files>(
    alloc: Global,
    files: &mut F,
    place: &JournalPlace,
    number: u64,
    entries: &mut Vec<Entry>,
) -> Result<bool, RecoverFault>
    ensures failures { IsFailureCounted (F.failed files.old) (F.failed files.new) result }
    ensures calls { FailsOnlySo F.Files
        (λ path. path ≡ file_at (string_bytes place.now.journal) number)
        files.old files.new result }
    ensures none { IfOk result (λ there. there ≡ false → F.tells →
        F.bytes_at files.old (file_at (string_bytes place.now.journal) number) ≡ None) }
    ensures kept { IfOk result (λ there. there ≡ false → entries.new ≡ entries.old) }
    ensures some { IfOk result (λ there. there ≡ true → F.tells →
        IsReadMore (string_bytes place.now.folder)
        (F.bytes_at files.old (file_at (string_bytes place.now.journal) number))
        (edits_of entries.old.items) (edits_of entries.new.items)) }
    ensures why { IfErr result (IsWhyTorn (spot_of place.now) number F.tells
        (F.bytes_at files.old)) }
    ensures same { F.tells → KeepsAll (F.bytes_at files.old) (F.bytes_at files.new) }
    ensures untraced { F.whole → Makes [] (F.trace files.old) (F.trace files.new)
        (F.bytes_at files.old) (F.bytes_at files.new) }
{
    let path = file_of(alloc, &place.journal, number)?;
    match look(alloc, files, &path) {
        Ok(None) => Ok(false),
        Ok(Some(text)) => match read_back(alloc, &text) {
            Ok(raw) => {
                place_all(alloc, &place.folder, raw, entries)?;
                Ok(true)
            }
            Err(JournalFault::Memory) => Err(RecoverFault::Memory),
            Err(JournalFault::NotJournal) => Err(no_journal(alloc, &place.journal)),
        },
        Err(fault) => Err(read_fault(alloc, &path, fault)),
    }
}

/// Reads the files of the row, up to the first that isn't there, and returns how many there are.
#[tactic(auto, using(crate::proofs::FailedLemmas::call_steps))]
fn read_files<F: Files>(
    alloc: Global,
    files: &mut F,
    place: &JournalPlace,
    entries: &mut Vec<Entry>,
) -> Result<u64, RecoverFault>
    requires { entries.old.items ≡ [] }
    ensures failures { IsFailureCounted (F.failed files.old) (F.failed files.new) result }
    ensures calls { FailsOnlySo F.Files
        (IsReached (spot_of place.now) F.tells (F.bytes_at files.old)) files.old files.new result }
    ensures read { IfOk result (λ count. F.tells → IsRowRead (spot_of place.now)
        (F.bytes_at files.old) count (edits_of entries.new.items)) }
    ensures why { IfErr result (IsWhyUnread (spot_of place.now) F.tells (F.bytes_at files.old)) }
    ensures same { F.tells → KeepsAll (F.bytes_at files.old) (F.bytes_at files.new) }
    ensures untraced { F.whole → Makes [] (F.trace files.old) (F.trace files.new)
        (F.bytes_at files.old) (F.bytes_at files.new) }
{
    for number in 0..u64::MAX {
        if !read_file(alloc, files, place, number, entries)? {
            return Ok(number);
        }
    }
    Err(RecoverFault::Memory)
}

/// Reads the journal at this place, if there is one. The error says why it can't be read; a row of
/// files that no call writes is `NotJournal`. Nothing is changed.
#[tactic(auto, using(crate::proofs::FailedLemmas::call_steps))]
pub fn row_at<F: Files>(
    alloc: Global,
    files: &mut F,
    place: &JournalPlace,
) -> Result<Option<Row>, RecoverFault>
    ensures failures { IsFailureCounted (F.failed files.old) (F.failed files.new) result }
    ensures calls { FailsOnlySo F.Files
        (IsReached (spot_of place.now) F.tells (F.bytes_at files.old)) files.old files.new result }
    ensures none { IfOk result (λ found. found ≡ None → F.tells →
        F.bytes_at files.old (string_bytes place.now.journal) ≡ None) }
    ensures some { IfOk result (λ found. (row : Row) → found ≡ Some row → F.tells →
        IsRowRead (spot_of place.now) (F.bytes_at files.old) row.count
        (edits_of row.entries.items)) }
    ensures there { IfOk result (λ found. (row : Row) → found ≡ Some row → F.tells →
        IsSome (F.bytes_at files.old (string_bytes place.now.journal))) }
    ensures of_call { IfOk result (λ found. (row : Row) → found ≡ Some row →
        AreOfCall (string_bytes place.now.journal)
        (edits_of row.entries.items) (edits_of row.entries.items)) }
    ensures why { IfErr result (IsWhyUnread (spot_of place.now) F.tells (F.bytes_at files.old)) }
    ensures same { F.tells → KeepsAll (F.bytes_at files.old) (F.bytes_at files.new) }
    ensures untraced { F.whole → Makes [] (F.trace files.old) (F.trace files.new)
        (F.bytes_at files.old) (F.bytes_at files.new) }
{
    let mut entries = Vec::new(alloc);
    let count = read_files(alloc, files, place, &mut entries)?;
    if count == 0 {
        return Ok(None);
    }
    if !are_of_call(&place.journal, &entries, &entries) {
        return Err(no_journal(alloc, &place.journal));
    }
    Ok(Some(Row { entries, count }))
}
