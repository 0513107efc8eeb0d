//! The repository that a folder is in, and its own folder, in which git keeps what it knows.

ghost use Rattle.std.specs.Prelude.{◌≡◌, [], IfErr, IfOk, Some, codes, option_map};
ghost use Rattle.hack_base.specs.Names.{Name, optional_text};
ghost use Rattle.hack_base.specs.PathTexts.{join_of, normal_of};
ghost use Rattle.hack_files.specs.Files.{KeepsAll, Makes};
ghost use Rattle.hack_places.specs.FileLooks.{AreLooksCounted, AreLooksSeen, IsOfLooked, IsOfPath};
ghost use Rattle.hack_places.specs.Folders.{above};
ghost use Rattle.hack_places.specs.LookedPaths.{IsOwnFolderLook, IsRepositoryLook};
ghost use Rattle.hack_places.specs.Repositories.{has_head, is_folder, link_in, linked_by};
ghost use Rattle.hack_places.specs.Repositories.{own_folder_in, repository_above, repository_in};
ghost use Rattle.hack_places.specs.RepositoryView.{repository_of};

use crate::look::{LookFault, held, is_there};
use crate::workspace::{text_of, within};
use hack_base::paths::{join, parent};
use hack_files::fs::Files;
use std::alloc::{AllocError, Global};

/// A repository.
#[derive(Drop)]
pub struct Repository {
    /// Its topmost folder, which has `.git`.
    pub top: String,
    /// Its own folder: `.git`, or the one that `.git` names, as in a worktree.
    pub own: String,
}

/// The nearest repository among a folder and so many folders above it.
#[tactic(auto, using(crate::proofs::LookLemmas::look_steps))]
pub fn nearest_repository<F: Files>(
    alloc: Global,
    steps: usize,
    folder: &str,
    files: &mut F,
) -> Result<Option<Repository>, LookFault>
    ensures found { IfOk result (λ found. F.tells
        → option_map repository_of found ≡
        repository_above (F.bytes_at files.old) steps folder.now) }
    ensures counted { AreLooksCounted (F.failed files.old) (F.failed files.new) result }
    ensures seen { AreLooksSeen F.Files files.old files.new result }
    ensures looked { IfErr result (IsOfLooked (IsRepositoryLook F.tells (F.bytes_at files.old)
        (above steps folder.now))) }
    ensures same { F.tells → KeepsAll (F.bytes_at files.old) (F.bytes_at files.new) }
    ensures untraced { F.whole → Makes [] (F.trace files.old) (F.trace files.new)
        (F.bytes_at files.old) (F.bytes_at files.new) }
{
    if steps == 0 {
        return Ok(None);
    }
    match repository_in(alloc, folder, files)? {
        Some(found) => Ok(Some(found)),
        None => nearest_repository(alloc, steps - 1, parent(folder), files),
    }
}

/// The repository whose topmost folder this is, if it is one's.
fn repository_in<F: Files>(
    alloc: Global,
    folder: &str,
    files: &mut F,
) -> Result<Option<Repository>, LookFault>
    ensures found { IfOk result (λ found. F.tells
        → option_map repository_of found ≡ repository_in (F.bytes_at files.old) folder.now) }
    ensures counted { AreLooksCounted (F.failed files.old) (F.failed files.new) result }
    ensures seen { AreLooksSeen F.Files files.old files.new result }
    ensures looked { IfErr result (IsOfLooked (IsOwnFolderLook F.tells (F.bytes_at files.old)
        folder.now (join_of folder.now (codes ".git")))) }
    ensures same { F.tells → KeepsAll (F.bytes_at files.old) (F.bytes_at files.new) }
    ensures untraced { F.whole → Makes [] (F.trace files.old) (F.trace files.new)
        (F.bytes_at files.old) (F.bytes_at files.new) }
{
    match own_folder(alloc, folder, files)? {
        Some(own) => Ok(Some(Repository {
            top: String::from_str(alloc, folder)?,
            own,
        })),
        None => Ok(None),
    }
}

/// The own folder of the repository whose topmost folder this is.
#[tactic(auto, using(crate::proofs::LookLemmas::look_steps))]
fn own_folder<F: Files>(
    alloc: Global,
    folder: &str,
    files: &mut F,
) -> Result<Option<String>, LookFault>
    ensures found { IfOk result (λ found. F.tells
        → optional_text found ≡ own_folder_in (F.bytes_at files.old) folder.now) }
    ensures counted { AreLooksCounted (F.failed files.old) (F.failed files.new) result }
    ensures seen { AreLooksSeen F.Files files.old files.new result }
    ensures looked { IfErr result (IsOfLooked (IsOwnFolderLook F.tells (F.bytes_at files.old)
        folder.now (join_of folder.now (codes ".git")))) }
    ensures same { F.tells → KeepsAll (F.bytes_at files.old) (F.bytes_at files.new) }
    ensures untraced { F.whole → Makes [] (F.trace files.old) (F.trace files.new)
        (F.bytes_at files.old) (F.bytes_at files.new) }
{
    let git = join(alloc, folder, ".git")?;
    if has_head(alloc, git.as_str(), files)? {
        return Ok(Some(git));
    }
    if is_folder(alloc, git.as_str(), files)? {
        return Ok(None);
    }
    match held(alloc, git.as_str(), files)? {
        Some(bytes) => linked(alloc, folder, &bytes, files),
        None => Ok(None),
    }
}

/// The folder that the bytes of a file `.git` name, if it is a repository's own one.
#[tactic(auto, using(hack_files::proofs::FilesLemmas::trace_steps))]
fn linked<F: Files>(
    alloc: Global,
    folder: &str,
    bytes: &[u8],
    files: &mut F,
) -> Result<Option<String>, LookFault>
    ensures found { IfOk result (λ found. F.tells
        → optional_text found ≡ linked_by (F.bytes_at files.old) folder.now bytes.now) }
    ensures counted { AreLooksCounted (F.failed files.old) (F.failed files.new) result }
    ensures seen { AreLooksSeen F.Files files.old files.new result }
    ensures looked { IfErr result (IsOfLooked (λ path. (link : Name)
        × (link_in bytes.now ≡ Some link)
        × (path ≡ join_of (normal_of (join_of folder.now link)) (codes "HEAD")))) }
    ensures same { F.tells → KeepsAll (F.bytes_at files.old) (F.bytes_at files.new) }
    ensures untraced { F.whole → Makes [] (F.trace files.old) (F.trace files.new)
        (F.bytes_at files.old) (F.bytes_at files.new) }
{
    let Some(path) = link_in(alloc, bytes)? else {
        return Ok(None);
    };
    let own = within(alloc, folder, path.as_str())?;
    if has_head(alloc, own.as_str(), files)? {
        Ok(Some(own))
    } else {
        Ok(None)
    }
}

/// The path in the bytes of a file `.git`.
fn link_in(alloc: Global, bytes: &[u8]) -> Result<Option<String>, AllocError>
    ensures { IfOk result (λ path. optional_text path ≡ link_in bytes.now) }
{
    let Some(rest) = bytes.strip_prefix(b"gitdir: ") else {
        return Ok(None);
    };
    match text_of(Some(rest.to_vec(alloc)?)) {
        Some(text) => Ok(Some(String::from_str(alloc, text.trim_end())?)),
        None => Ok(None),
    }
}

/// Whether a folder has a file `HEAD`, as the own folder of each repository has.
#[tactic(auto, using(hack_files::proofs::FilesLemmas::trace_steps))]
fn has_head<F: Files>(alloc: Global, folder: &str, files: &mut F) -> Result<bool, LookFault>
    ensures found { IfOk result (λ found. F.tells
        → found ≡ has_head (F.bytes_at files.old) folder.now) }
    ensures counted { AreLooksCounted (F.failed files.old) (F.failed files.new) result }
    ensures seen { AreLooksSeen F.Files files.old files.new result }
    ensures named { IfErr result (IsOfPath (join_of folder.now (codes "HEAD"))) }
    ensures same { F.tells → KeepsAll (F.bytes_at files.old) (F.bytes_at files.new) }
    ensures untraced { F.whole → Makes [] (F.trace files.old) (F.trace files.new)
        (F.bytes_at files.old) (F.bytes_at files.new) }
{
    let head = join(alloc, folder, "HEAD")?;
    is_there(alloc, head.as_str(), files)
}

/// Whether a path is a folder's, which has itself as `.`.
#[tactic(auto, using(hack_files::proofs::FilesLemmas::trace_steps))]
fn is_folder<F: Files>(alloc: Global, path: &str, files: &mut F) -> Result<bool, LookFault>
    ensures found { IfOk result (λ found. F.tells
        → found ≡ is_folder (F.bytes_at files.old) path.now) }
    ensures counted { AreLooksCounted (F.failed files.old) (F.failed files.new) result }
    ensures seen { AreLooksSeen F.Files files.old files.new result }
    ensures named { IfErr result (IsOfPath (join_of path.now (codes "."))) }
    ensures same { F.tells → KeepsAll (F.bytes_at files.old) (F.bytes_at files.new) }
    ensures untraced { F.whole → Makes [] (F.trace files.old) (F.trace files.new)
        (F.bytes_at files.old) (F.bytes_at files.new) }
{
    let own = join(alloc, path, ".")?;
    is_there(alloc, own.as_str(), files)
}
