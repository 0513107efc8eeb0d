//! Entries that no call makes: they name a file that no call edits.
//!
//! A journal that has one is not restored, so a call notes none.

ghost use Rattle.std.specs.Prelude.{◌≡◌, IfErr, Some, IfOk, codes, nat_eq, false, true};
ghost use Rattle.std.specs.List.{ends_with};
ghost use Rattle.std.specs.Option.{option_map};
ghost use Rattle.hack_journal.specs.Journal.{edit_of, edits_of};
ghost use Rattle.hack_journal.specs.Keeping.{IsOfCause};
ghost use Rattle.hack_journal.specs.Strangers.{first_stranger, is_edit_of_manifest};

use crate::journal::Entry;
use hack_files::fs::FileFault;
use std::alloc::Global;

/// The first entry that no call makes.
pub fn first_stranger(entries: &[Entry]) -> Option<&Entry>
    ensures { option_map (λ entry. edit_of entry.now) result
        ≡ first_stranger (edits_of entries.now) }
{
    match entries {
        [] => None,
        [entry, rest @ ..] => {
            if is_edit_of_manifest(entry) {
                first_stranger(rest)
            } else {
                Some(entry)
            }
        }
    }
}

/// Makes the entry of a manifest that held these bytes at first, and is to hold others. It is
/// refused where the next call would take it for a stranger.
pub(crate) fn edit_of_manifest(
    alloc: Global,
    path: &str,
    held: Option<Vec<u8>>,
    bytes: &[u8],
) -> Result<Entry, FileFault>
    ensures path { IfOk result (λ entry. (edit_of entry).path ≡ path.now) }
    ensures held { IfOk result (λ entry.
        (edit_of entry).held ≡ option_map (λ bytes. bytes.items) held) }
    ensures wrote { IfOk result (λ entry. (edit_of entry).wrote ≡ Some bytes.now) }
    ensures known { IfOk result (λ entry. is_edit_of_manifest (edit_of entry) ≡ true) }
    ensures why { IfErr result (IsOfCause (is_edit_of_manifest (record {
      path = path.now;
      held = option_map (λ bytes. bytes.items) held;
      wrote = Some bytes.now;
    }) ≡ false)) }
{
    let (Ok(path), Ok(wrote)) = (String::from_str(alloc, path), bytes.to_vec(alloc)) else {
        return Err(FileFault::Memory);
    };
    let wrote = Some(wrote);
    let entry = Entry { path, held, wrote };
    if is_edit_of_manifest(&entry) {
        Ok(entry)
    } else {
        Err(FileFault::Device)
    }
}

/// Whether the entry is of a manifest that was there, and was given another text.
fn is_edit_of_manifest(entry: &Entry) -> bool
    ensures { result ≡ is_edit_of_manifest (edit_of entry.now) }
{
    is_manifest(entry.path.as_str()) && entry.held.is_some() && entry.wrote.is_some()
}

/// Whether a path is a manifest's: its last part is `Cargo.toml`.
fn is_manifest(path: &str) -> bool
    ensures { result ≡ ends_with nat_eq path.now (codes "/Cargo.toml") }
{
    path.ends_with("/Cargo.toml")
}
