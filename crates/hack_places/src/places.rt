//! Where a call's workspace is, its journal, and what else is kept while manifests are edited.

ghost use Rattle.std.specs.Prelude.{◌≡◌, ◌||◌, [], IfErr, IfOk, string_bytes};
ghost use Rattle.hack_files.specs.Files.{KeepsAll, Makes};
ghost use Rattle.hack_places.specs.FileLooks.{AreLooksCounted, AreLooksSeen, IsOfLooked};
ghost use Rattle.hack_places.specs.CallPlaces.{ArePlacesOf, is_left};
ghost use Rattle.hack_places.specs.Folders.{folders};
ghost use Rattle.hack_places.specs.LookedPaths.{IsPlaceLook, IsRepositoryLook};
ghost use Rattle.hack_places.specs.PlacesView.{places_view};

use crate::journal::{journal_beside, journal_of, lockfile_copy};
use crate::look::{LookFault, is_there};
use hack_base::paths::join;
use hack_files::fs::Files;
use hack_journal::place::JournalPlace;
use std::alloc::{AllocError, Global};

/// Where a call's workspace is, its journal, and what else is kept while manifests are edited.
#[derive(Drop)]
pub struct Places {
    /// The folder of the workspace, as it was found.
    pub found: String,
    /// The folder of the call's package.
    pub pkg_dir: String,
    /// The folder of the workspace, by its path without symbolic links, and its journal.
    pub place: JournalPlace,
    /// The same folder, and where an older version had the journal.
    pub older: JournalPlace,
    pub lockfile: String,
    /// The path of the lockfile's copy.
    pub copy: String,
}

impl Places {
    /// The places of a workspace, whose folder was found as `found`, and has the path `folder` without
    /// symbolic links.
    pub fn of<F: Files>(
        alloc: Global,
        found: String,
        pkg_dir: String,
        folder: &str,
        files: &mut F,
    ) -> Result<Places, LookFault>
        ensures named { IfOk result (λ places. (places.found ≡ found)
            × (places.pkg_dir ≡ pkg_dir)) }
        ensures found { IfOk result (λ places. ArePlacesOf F.tells (F.bytes_at files.old)
            folder.now (places_view places)) }
        ensures counted { AreLooksCounted (F.failed files.old) (F.failed files.new) result }
        ensures seen { AreLooksSeen F.Files files.old files.new result }
        ensures looked { IfErr result (IsOfLooked (IsRepositoryLook F.tells
            (F.bytes_at files.old) (folders folder.now))) }
        ensures same { F.tells → KeepsAll (F.bytes_at files.old) (F.bytes_at files.new) }
        ensures untraced { F.whole → Makes [] (F.trace files.old) (F.trace files.new)
            (F.bytes_at files.old) (F.bytes_at files.new) }
    {
        let journal = journal_of(alloc, folder, files)?;
        let older = journal_beside(alloc, folder)?;
        let lockfile = join(alloc, folder, "Cargo.lock")?;
        let copy = lockfile_copy(alloc, journal.as_str())?;
        Ok(Places {
            found,
            pkg_dir,
            place: place_at(alloc, folder, journal)?,
            older: place_at(alloc, folder, older)?,
            lockfile,
            copy,
        })
    }

    /// Whether an interrupted call left anything there.
    #[tactic(auto, using(crate::proofs::LookLemmas::look_steps))]
    pub fn is_left<F: Files>(&self, alloc: Global, files: &mut F) -> Result<bool, LookFault>
        ensures found { IfOk result (λ left. F.tells
            → left ≡ is_left (F.bytes_at files.old) (places_view self.now)) }
        ensures counted { AreLooksCounted (F.failed files.old) (F.failed files.new) result }
        ensures seen { AreLooksSeen F.Files files.old files.new result }
        ensures looked { IfErr result (IsOfLooked (IsPlaceLook (places_view self.now))) }
        ensures same { F.tells → KeepsAll (F.bytes_at files.old) (F.bytes_at files.new) }
        ensures untraced { F.whole → Makes [] (F.trace files.old) (F.trace files.new)
            (F.bytes_at files.old) (F.bytes_at files.new) }
    {
        let journal = is_there(alloc, self.place.journal.as_str(), files)?;
        let older = is_there(alloc, self.older.journal.as_str(), files)?;
        let copy = is_there(alloc, self.copy.as_str(), files)?;
        Ok(any_of(journal, older, copy))
    }
}

fn any_of(one: bool, other: bool, third: bool) -> bool
    ensures { result ≡ (one || other || third) }
{
    one || other || third
}

/// A journal at this path, and the folder that its paths are relative to.
pub fn place_at(alloc: Global, folder: &str, journal: String) -> Result<JournalPlace, AllocError>
    ensures { IfOk result (λ place. (string_bytes place.folder ≡ folder.now)
        × (string_bytes place.journal ≡ string_bytes journal)) }
{
    Ok(JournalPlace {
        folder: String::from_str(alloc, folder)?,
        journal,
    })
}
