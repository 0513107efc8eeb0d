//! What the entries of a journal say of a path.

ghost use Rattle.std.specs.Prelude.{◌≡◌, ◌↔◌, IsTrue, IfOk};
ghost use Rattle.std.specs.Option.{option_map};
ghost use Rattle.hack_journal.specs.Journal.{edit_of, edits_of};
ghost use Rattle.hack_journal.specs.SafeFiles.{EntryHasBytes, SomeEntryHasBytes, first_entry_of};
ghost use Rattle.hack_journal.specs.Recovery.{AgreesOnHeld, IsOfCall, AreOfCall};

use crate::journal::Entry;
use crate::place::is_of_journal;
use std::alloc::{AllocError, Global};

/// Returns whether two files hold the same bytes, or both are absent.
pub fn same(a: Option<&[u8]>, b: Option<&[u8]>) -> bool
    ensures { IsTrue result ↔ (option_map (λ bytes. bytes.now) a.entry ≡
        option_map (λ bytes. bytes.now) b.entry) }
{
    match (a, b) {
        (Some(a), Some(b)) => a == b,
        (None, None) => true,
        _ => false,
    }
}

/// Copies what a file holds.
pub fn copy(alloc: Global, bytes: Option<&[u8]>) -> Result<Option<Vec<u8>>, AllocError>
    ensures { IfOk result (λ copy. option_map (λ bytes. bytes.items) copy ≡
        option_map (λ bytes. bytes.now) bytes.entry) }
{
    match bytes {
        Some(bytes) => Ok(Some(bytes.to_vec(alloc)?)),
        None => Ok(None),
    }
}

fn fits(entry: &Entry, path: &str, bytes: Option<&[u8]>) -> bool
    ensures { IsTrue result ↔
        EntryHasBytes (edit_of entry.now) path.now (option_map (λ bytes. bytes.now) bytes.entry) }
{
    entry.path.as_str() == path
        && (same(bytes, entry.held.as_deref()) || same(bytes, entry.wrote.as_deref()))
}

/// Returns whether an entry of the path has these bytes: the path held them, or they were written.
pub fn tells(entries: &[Entry], path: &str, bytes: Option<&[u8]>) -> bool
    ensures { IsTrue result ↔
        SomeEntryHasBytes (edits_of entries.now) path.now
        (option_map (λ bytes. bytes.now) bytes.entry) }
{
    match entries {
        [] => false,
        [entry, rest @ ..] => fits(entry, path, bytes) || tells(rest, path, bytes),
    }
}

/// Returns the first entry of the path, if there is one.
pub fn first<'a>(entries: &'a [Entry], path: &str) -> Option<&'a Entry>
    ensures { option_map (λ entry. edit_of entry.now) result ≡
        first_entry_of (edits_of entries.now) path.now }
{
    match entries {
        [] => None,
        [entry, rest @ ..] => {
            if entry.path.as_str() == path {
                Some(entry)
            } else {
                first(rest, path)
            }
        }
    }
}

/// Whether the first entry of a path, if there is one, says the same as this one of what the path
/// held at first.
fn agrees(first: Option<&Entry>, entry: &Entry) -> bool
    ensures { IsTrue result ↔
        AgreesOnHeld (option_map (λ entry. edit_of entry.now) first.entry)
        (edit_of entry.now).held }
{
    match first {
        Some(first) => same(first.held.as_deref(), entry.held.as_deref()),
        None => true,
    }
}

fn is_of_call(journal: &str, all: &[Entry], entry: &Entry) -> bool
    ensures { IsTrue result ↔
        IsOfCall journal.now (edits_of all.now) (edit_of entry.now) }
{
    if is_of_journal(journal, entry.path.as_str()) {
        return false;
    }
    agrees(first(all, entry.path.as_str()), entry)
}

/// Returns whether these entries, of a journal that has `all`, are as a call writes them: none has
/// a path that is set aside for the journal, and those of one path agree on what it held.
pub fn are_of_call(journal: &str, all: &[Entry], entries: &[Entry]) -> bool
    ensures { IsTrue result ↔ AreOfCall journal.now
        (edits_of all.now) (edits_of entries.now) }
{
    match entries {
        [] => true,
        [entry, rest @ ..] => { is_of_call(journal, all, entry) && are_of_call(journal, all, rest) }
    }
}
