//! Where the journal of a call lies: in the own folder of the workspace's repository, so that it is
//! in no package and in no `git status`; or else beside the workspace's manifest.

ghost use Rattle.std.specs.Prelude.{◌≡◌, [], IfErr, IfOk, string_bytes};
ghost use Rattle.std.specs.List.{list_all};
ghost use Rattle.hack_base.specs.Names.{optional_text};
ghost use Rattle.hack_files.specs.Files.{KeepsAll, Makes};
ghost use Rattle.hack_places.specs.FileLooks.{AreLooksCounted, AreLooksSeen, IsOfLooked};
ghost use Rattle.hack_places.specs.Folders.{folders};
ghost use Rattle.hack_places.specs.JournalPlaces.{is_plain_byte, journal_beside, journal_name};
ghost use Rattle.hack_places.specs.JournalPlaces.{journal_of, journal_within, lockfile_copy};
ghost use Rattle.hack_places.specs.JournalPlaces.{percent_for_slash, workspace_name};
ghost use Rattle.hack_places.specs.LookedPaths.{IsRepositoryLook};
ghost use Rattle.hack_places.specs.RepositoryView.{repository_of};

use crate::look::LookFault;
use crate::repository::{Repository, nearest_repository};
use crate::workspace::text_of;
use hack_base::paths::{join, under};
use hack_files::fs::Files;
use std::alloc::{AllocError, Global};

/// The path of the journal of a workspace's folder.
pub fn journal_of<F: Files>(alloc: Global, folder: &str, files: &mut F) -> Result<String, LookFault>
    ensures found { IfOk result (λ path. F.tells
        → string_bytes path ≡ journal_of (F.bytes_at files.old) folder.now) }
    ensures counted { AreLooksCounted (F.failed files.old) (F.failed files.new) result }
    ensures seen { AreLooksSeen F.Files files.old files.new result }
    ensures looked { IfErr result (IsOfLooked (IsRepositoryLook F.tells (F.bytes_at files.old)
        (folders folder.now))) }
    ensures same { F.tells → KeepsAll (F.bytes_at files.old) (F.bytes_at files.new) }
    ensures untraced { F.whole → Makes [] (F.trace files.old) (F.trace files.new)
        (F.bytes_at files.old) (F.bytes_at files.new) }
{
    match nearest_repository(alloc, folder.len(), folder, files)? {
        Some(found) => Ok(journal_within(alloc, folder, &found)?),
        None => Ok(journal_beside(alloc, folder)?),
    }
}

/// The path of a journal beside the workspace's manifest, where each was once.
pub fn journal_beside(alloc: Global, folder: &str) -> Result<String, AllocError>
    ensures { IfOk result (λ path. string_bytes path ≡ journal_beside folder.now) }
{
    join(alloc, folder, ".cargo-hack-journal")
}

/// The path of the copy of the lockfile that is kept with a journal.
pub fn lockfile_copy(alloc: Global, journal: &str) -> Result<String, AllocError>
    ensures { IfOk result (λ path. string_bytes path ≡ lockfile_copy journal.now) }
{
    format!(in alloc; "{journal}~lock")
}

/// The path of the journal of a folder that is in this repository.
fn journal_within(
    alloc: Global,
    folder: &str,
    repository: &Repository,
) -> Result<String, AllocError>
    ensures { IfOk result (λ path. string_bytes path
        ≡ journal_within folder.now (repository_of repository.now)) }
{
    if folder == repository.top.as_str() {
        return join(alloc, repository.own.as_str(), "cargo-hack-journal");
    }
    let path = under(folder, repository.top.as_str());
    match journal_name(alloc, path)? {
        Some(name) => join(alloc, repository.own.as_str(), name.as_str()),
        None => journal_beside(alloc, folder),
    }
}

/// The name of the journal of a workspace at this path in its repository. A path that is long, or
/// has a mark of such names, has none.
fn journal_name(alloc: Global, path: &str) -> Result<Option<String>, AllocError>
    ensures { IfOk result (λ name. optional_text name ≡ journal_name path.now) }
{
    if path.len() > 200 || !is_plain(path.as_bytes()) {
        return Ok(None);
    }
    match workspace_name(alloc, path)? {
        Some(name) => Ok(Some(format!(in alloc; "cargo-hack-journal-{name}")?)),
        None => Ok(None),
    }
}

/// Whether bytes have neither `%`, which stands for a slash, nor `~`, after which comes what tells
/// the files of a journal apart.
fn is_plain(bytes: &[u8]) -> bool
    ensures { result ≡ list_all is_plain_byte bytes.now }
{
    match bytes {
        [] => true,
        [byte, rest @ ..] => *byte != b'%' && *byte != b'~' && is_plain(rest),
    }
}

/// A path with each slash turned into `%`.
fn workspace_name(alloc: Global, path: &str) -> Result<Option<String>, AllocError>
    ensures { IfOk result (λ name. optional_text name ≡ workspace_name path.now) }
{
    let mut bytes = Vec::new(alloc);
    for byte in path.as_bytes() {
        bytes.push(percent_for_slash(*byte))?;
    }
    Ok(text_of(Some(bytes)))
}

fn percent_for_slash(byte: u8) -> u8
    ensures { result ≡ percent_for_slash byte }
{
    if byte == b'/' { b'%' } else { byte }
}
