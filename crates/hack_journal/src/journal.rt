//! The text of a journal: what each edited path held, and what was to be written there.
//!
//! A person can read it. Each line of a file begins with a space, as does each line of a path but
//! the first, so a line that begins with a letter is the journal's own.

ghost use Rattle.std.specs.Prelude.{◌≡◌, ◌++◌, ◌<◌, ◌≤◌, [], ◌∷◌, ℕ, List, Option, Some, OnOk, IfErr, IfOk};
ghost use Rattle.std.specs.Prelude.{length, string_bytes};
ghost use Rattle.std.specs.Option.{option_map};
ghost use Rattle.std.specs.Str.{IsUtf8};
ghost use Rattle.hack_journal.specs.Journal.{Edit, edit_of, edits_of, lines, edit_text, ReadsValue};
ghost use Rattle.hack_journal.specs.Journal.{HaveTextPaths, content_text, edits_text, journal_text};
ghost use Rattle.hack_journal.specs.Internal.{BeginsWithoutSpace};
ghost use Rattle.hack_journal.specs.Keeping.{IsOfCause, IsWayless};
ghost use Rattle.hack_journal.specs.Rows.{IsNoteOf};

use crate::place::relative;
use hack_files::fs::FileFault;
use std::alloc::{AllocError, AllocFailed, Global};
use thiserror::Error;

/// What a path held before its first edit, and what an edit writes there. `None` is an absent file.
#[derive(Debug, Drop, PartialEq, Eq)]
pub struct Entry {
    pub path: String,
    pub held: Option<Vec<u8>>,
    pub wrote: Option<Vec<u8>>,
}

/// Why a text can't be read as a journal.
#[derive(Clone, Copy, Debug, PartialEq, Eq, Error)]
pub enum JournalFault {
    #[error("out of memory")]
    Memory,
    /// The text is not one that `spell` returns for any entries.
    #[error("not a journal of edited files")]
    NotJournal,
}

impl From<AllocError> for JournalFault {
    ghost use Rattle.std.specs.Prelude.{◌≡◌};
    ghost use Rattle.hack_journal.specs.declared.journal.JournalFault.TheVariants.{Memory};

    ghost from_gives = { λ _ e. e ≡ Memory };

    fn from(_: AllocError) -> JournalFault {
        JournalFault::Memory
    }
}

impl<T: Drop> From<AllocFailed<T>> for JournalFault {
    ghost use Rattle.std.specs.Prelude.{◌≡◌};
    ghost use Rattle.hack_journal.specs.declared.journal.JournalFault.TheVariants.{Memory};

    ghost from_gives = { λ _ e. e ≡ Memory };

    fn from(_: AllocFailed<T>) -> JournalFault {
        JournalFault::Memory
    }
}

fn put_lines(text: &mut Vec<u8>, bytes: &[u8]) -> Result<(), AllocError>
    ensures { OnOk result (text.new.items ≡ text.old.items ++ lines bytes.now) }
{
    for byte in bytes {
        text.push(*byte)?;
        if *byte == b'\n' {
            text.push(b' ')?;
        }
    }
    text.push(b'\n')?;
    Ok(())
}

fn put_content(text: &mut Vec<u8>, bytes: Option<&[u8]>) -> Result<(), AllocError>
    ensures { OnOk result (text.new.items ≡
        text.old.items ++ content_text (option_map (λ bytes. bytes.now) bytes.entry)) }
{
    match bytes {
        None => text.extend_from_slice(b" nothing\n"),
        Some(bytes) => {
            text.extend_from_slice(b"\n ")?;
            put_lines(text, bytes)
        }
    }
}

/// Adds an entry, with this path in place of its own.
fn put_entry(text: &mut Vec<u8>, path: &str, entry: &Entry) -> Result<(), AllocError>
    ensures { OnOk result (text.new.items ≡
        text.old.items ++ edit_text (record (edit_of entry.now) { path = path.now })) }
{
    text.extend_from_slice(b"path ")?;
    put_lines(text, path.as_bytes())?;
    text.extend_from_slice(b"held")?;
    put_content(text, entry.held.as_deref())?;
    text.extend_from_slice(b"wrote")?;
    put_content(text, entry.wrote.as_deref())?;
    Ok(())
}

fn put_entries(text: &mut Vec<u8>, entries: &[Entry]) -> Result<(), AllocError>
    ensures { OnOk result (text.new.items ≡ text.old.items ++ edits_text (edits_of entries.now)) }
{
    for entry in entries {
        put_entry(text, &entry.path, entry)?;
    }
    text.extend_from_slice(b"end\n")
}

/// Returns the text of a journal of these entries.
pub fn spell(alloc: Global, entries: &[Entry]) -> Result<Vec<u8>, AllocError>
    ensures { IfOk result (λ text. text.items ≡ journal_text (edits_of entries.now)) }
{
    let mut text = Vec::new(alloc);
    text.extend_from_slice(b"edited files\n")?;
    put_entries(&mut text, entries)?;
    Ok(text)
}

/// Returns the text of a journal of this entry alone, with this path in place of its own.
fn spell_at(alloc: Global, path: &str, entry: &Entry) -> Result<Vec<u8>, AllocError>
    ensures { IfOk result (λ text. text.items ≡
        journal_text (record (edit_of entry.now) { path = path.now } ∷ [])) }
{
    let mut text = Vec::new(alloc);
    text.extend_from_slice(b"edited files\n")?;
    put_entry(&mut text, path, entry)?;
    text.extend_from_slice(b"end\n")?;
    Ok(text)
}

/// Returns the text that keeps an entry. It is refused where no way leads from the folder to its path.
pub(crate) fn note_of(alloc: Global, folder: &str, entry: &Entry) -> Result<Vec<u8>, FileFault>
    ensures note { IfOk result (λ text.
        IsNoteOf folder.now (Some text.items) (edit_of entry.now)) }
    ensures why { IfErr result (IsOfCause (IsWayless folder.now (edit_of entry.now).path)) }
{
    match relative(alloc, folder, &entry.path) {
        Ok(Some(way)) => match spell_at(alloc, &way, entry) {
            Ok(text) => Ok(text),
            Err(_) => Err(FileFault::Memory),
        },
        Ok(None) => Err(FileFault::Device),
        Err(_) => Err(FileFault::Memory),
    }
}

/// Returns the bytes of lines, and what follows the line feed that ends them.
fn lines_of(alloc: Global, text: &[u8]) -> Result<(Vec<u8>, &[u8]), JournalFault>
    ensures shorter { IfOk result (λ x. length x.1.now < length text.now) }
    ensures only { (bytes rest : List ℕ) → BeginsWithoutSpace rest → text.now
        ≡ lines bytes ++ rest →
        ReadsValue {Y = List ℕ × List ℕ} (λ x. (x.0.items, x.1.now)) result (bytes, rest) }
{
    let mut bytes = Vec::new(alloc);
    let mut left = text;
    while let Some((byte, rest)) = left.split_first() {
        if *byte != b'\n' {
            bytes.push(*byte)?;
            left = rest;
        } else {
            match rest.strip_prefix(b" ") {
                Some(more) => {
                    bytes.push(b'\n')?;
                    left = more;
                }
                None => return Ok((bytes, rest)),
            }
        }
    }
    Err(JournalFault::NotJournal)
}

/// Returns the text of lines, and what follows them.
fn text_of(alloc: Global, text: &[u8]) -> Result<(String, &[u8]), JournalFault>
    ensures shorter { IfOk result (λ x. length x.1.now < length text.now) }
    ensures only { (bytes rest : List ℕ) → IsUtf8 bytes → BeginsWithoutSpace rest →
        text.now ≡ lines bytes ++ rest →
        ReadsValue {Y = List ℕ × List ℕ} (λ x. (string_bytes x.0, x.1.now)) result (bytes, rest) }
{
    let (bytes, rest) = lines_of(alloc, text)?;
    match String::from_utf8(bytes) {
        Ok(line) => Ok((line, rest)),
        Err(_) => Err(JournalFault::NotJournal),
    }
}

/// Returns what follows this word at the beginning.
fn behind<'a>(text: &'a [u8], word: &[u8]) -> Result<&'a [u8], JournalFault>
    ensures shorter { IfOk result (λ rest. length rest.now ≤ length text.now) }
    ensures only { (rest : List ℕ) → text.now ≡ word.now ++ rest →
        ReadsValue (λ x. x.now) result rest }
{
    match text.strip_prefix(word) {
        Some(rest) => Ok(rest),
        None => Err(JournalFault::NotJournal),
    }
}

/// Returns what a file held or is to hold, and what follows that.
fn content_of(alloc: Global, text: &[u8]) -> Result<(Option<Vec<u8>>, &[u8]), JournalFault>
    ensures shorter { IfOk result (λ x. length x.1.now ≤ length text.now) }
    ensures only { (bytes : Option (List ℕ)) (rest : List ℕ) → BeginsWithoutSpace rest →
        text.now ≡ content_text bytes ++ rest → ReadsValue {Y = Option (List ℕ) × List ℕ}
        (λ x. (option_map (λ bytes. bytes.items) x.0, x.1.now)) result (bytes, rest) }
{
    if let Some(rest) = text.strip_prefix(b" nothing\n") {
        return Ok((None, rest));
    }
    let rest = behind(text, b"\n ")?;
    let (bytes, rest) = lines_of(alloc, rest)?;
    Ok((Some(bytes), rest))
}

/// Returns the first entry of a text, and what follows it.
fn entry_of(alloc: Global, text: &[u8]) -> Result<(Entry, &[u8]), JournalFault>
    ensures shorter { IfOk result (λ x. length x.1.now < length text.now) }
    ensures only { (edit : Edit) (rest : List ℕ) → IsUtf8 edit.path → BeginsWithoutSpace rest →
        text.now ≡ edit_text edit ++ rest →
        ReadsValue {Y = Edit × List ℕ} (λ x. (edit_of x.0, x.1.now)) result (edit, rest) }
{
    let rest = behind(text, b"path ")?;
    let (path, rest) = text_of(alloc, rest)?;
    let rest = behind(rest, b"held")?;
    let (held, rest) = content_of(alloc, rest)?;
    let rest = behind(rest, b"wrote")?;
    let (wrote, rest) = content_of(alloc, rest)?;
    Ok((Entry { path, held, wrote }, rest))
}

fn entries_of(alloc: Global, text: &[u8]) -> Result<Vec<Entry>, JournalFault>
    ensures { (edits : List Edit) → HaveTextPaths edits → text.now ≡ edits_text edits →
        ReadsValue (λ x. edits_of x.items) result edits }
{
    let mut entries = Vec::new(alloc);
    let mut left = text;
    while left != b"end\n".as_slice() {
        let (entry, rest) = entry_of(alloc, left)?;
        entries.push(entry)?;
        left = rest;
    }
    Ok(entries)
}

/// Reads the entries of a journal's text. Reading the text of any entries returns those entries. A
/// text that isn't whole is `NotJournal`, as is any that `spell` doesn't return.
pub fn read_back(alloc: Global, text: &[u8]) -> Result<Vec<Entry>, JournalFault>
    ensures found { IfOk result (λ entries. text.now ≡ journal_text (edits_of entries.items)) }
    ensures back { (entries : List Entry) → text.now ≡ journal_text (edits_of entries) →
        ReadsValue (λ x. edits_of x.items) result (edits_of entries) }
    ensures only { (edits : List Edit) → HaveTextPaths edits → text.now ≡ journal_text edits →
        ReadsValue (λ x. edits_of x.items) result edits }
{
    let rest = behind(text, b"edited files\n")?;
    let entries = entries_of(alloc, rest)?;
    let again = spell(alloc, &entries)?;
    if again.as_slice() != text {
        return Err(JournalFault::NotJournal);
    }
    Ok(entries)
}
