//! The beginning of a call: what it asks for, where its journal lies, and whether an interrupted
//! call left anything.

ghost use Rattle.std.specs.Prelude.{◌≡◌, [], IfErr, IfOk, IfSome, OnOk, option_map};
ghost use Rattle.std.specs.Prelude.{string_bytes};
ghost use Rattle.hack_base.specs.Counters.{GrowsBy};
ghost use Rattle.hack_base.specs.Names.{names_of, optional_text};
ghost use Rattle.hack_files.specs.Files.{KeepsAll, Makes};
ghost use Rattle.hack_journal.specs.Rows.{spot_of};
ghost use Rattle.hack_recovery.specs.CallCourses.{ArePlacesFound, Begins, IsFolderLook};
ghost use Rattle.hack_recovery.specs.CallCourses.{IsLookedAt, package_of, workspace_of};
ghost use Rattle.hack_places.specs.FileLooks.{AreLooksCounted, AreLooksSeen, IsOfLooked};
ghost use Rattle.hack_recovery.specs.InternalHalts.{IsHalt};
ghost use Rattle.hack_places.specs.PlacesView.{places_view};
ghost use Rattle.hack_run.specs.Readings.{IsEarlyReading};
ghost use Rattle.hack_files.specs.View.{files_view};

use crate::asked::Asked;
use crate::locks::Locks;
use hack_base::copies::text_in;
use hack_files::fs::Files;
use hack_journal::place::JournalPlace;
use hack_places::look::LookFault;
use hack_places::places::{Places, place_at};
use hack_places::workspace::{package_dir, workspace};
use hack_run::reading::Reading;
use hack_words::cli::{Edits, Env};
use std::alloc::{AllocError, Global};

/// What a call does to manifests, and where its journal lies.
#[derive(Drop)]
pub(crate) struct Begun {
    pub edits: Edits,
    pub places: Places,
    /// The place of the journal once more, for the call itself.
    pub place: JournalPlace,
    /// Whether an interrupted call left anything there.
    pub is_left: bool,
    /// What the command line is read into, unless an argument needs rustup's version.
    pub reading: Option<Reading>,
}

/// Why a call doesn't begin.
#[derive(Drop)]
pub(crate) enum Halt {
    Memory,
    /// It asks for a text or cargo's list: nothing was looked at. The command line is read into
    /// this, unless an argument needs rustup's version.
    Prints(Option<Reading>),
    /// This path can't be looked at, so it isn't known whether an interrupted call left anything.
    Unseen { asked: Asked, path: String },
}

impl From<AllocError> for Halt {
    ghost use Rattle.hack_recovery.specs.declared.begin.Halt.TheVariants.{Memory};

    ghost from_gives = { λ _ e. e ≡ Memory };

    fn from(_: AllocError) -> Halt {
        Halt::Memory
    }
}

/// Where a call's journal lies, and whether an interrupted call left anything there.
#[derive(Drop)]
struct Found {
    places: Places,
    is_left: bool,
}

/// Reads what the call asks for, and looks where its journal is, unless it only prints. Nothing is
/// changed.
#[tactic(auto, using(crate::proofs::CountLemmas::counts))]
pub(crate) fn begin<F: Files, K: Locks>(
    alloc: Global,
    words: &[String],
    env: &Env,
    files: &mut F,
    locks: &K,
) -> Result<Begun, Halt>
    ensures begun { IfOk result (λ begun. Begins F.tells K.tells (K.real locks.now)
        (names_of words.now) env.now begun.edits (places_view begun.places) begun.is_left
        (files_view F.Files files.old)) }
    ensures place { IfOk result (λ begun. spot_of begun.place ≡ spot_of begun.places.place) }
    ensures reading { IfOk result (λ begun. IfSome begun.reading
        (IsEarlyReading env.now (names_of words.now))) }
    ensures counted { OnOk result (GrowsBy 0 (F.failed files.old) (F.failed files.new)) }
    ensures halted { IfErr result (IsHalt F.Files K.tells (K.real locks.now) env.now
        (names_of words.now) files.old files.new) }
    ensures same { F.tells → KeepsAll (F.bytes_at files.old) (F.bytes_at files.new) }
    ensures untraced { F.whole → Makes [] (F.trace files.old) (F.trace files.new)
        (F.bytes_at files.old) (F.bytes_at files.new) }
{
    let asked = Asked::of(alloc, words, env)?;
    if asked.prints {
        return Err(Halt::Prints(asked.reading));
    }
    let Found { places, is_left } = match find(alloc, &asked, env, files, locks) {
        Ok(found) => found,
        Err(LookFault::Memory) => return Err(Halt::Memory),
        Err(LookFault::Device(path)) => return Err(Halt::Unseen { asked, path }),
    };
    let folder = places.place.folder.as_str();
    let journal = String::from_str(alloc, places.place.journal.as_str())?;
    let place = place_at(alloc, folder, journal)?;
    Ok(Begun {
        edits: asked.edits,
        places,
        place,
        is_left,
        reading: asked.reading,
    })
}

/// Looks where the journal is of a call that asks for this.
#[tactic(auto, using(hack_places::proofs::LookLemmas::look_steps))]
fn find<F: Files, K: Locks>(
    alloc: Global,
    asked: &Asked,
    env: &Env,
    files: &mut F,
    locks: &K,
) -> Result<Found, LookFault>
    ensures found { IfOk result (λ found. ArePlacesFound F.tells K.tells (K.real locks.now)
        (F.bytes_at files.old) (optional_text asked.now.manifest_path) env.now
        (places_view found.places) found.is_left) }
    ensures counted { AreLooksCounted (F.failed files.old) (F.failed files.new) result }
    ensures seen { AreLooksSeen F.Files files.old files.new result }
    ensures looked { IfErr result (IsOfLooked (IsLookedAt F.tells K.tells (K.real locks.now)
        (F.bytes_at files.old) (optional_text asked.now.manifest_path) env.now)) }
    ensures same { F.tells → KeepsAll (F.bytes_at files.old) (F.bytes_at files.new) }
    ensures untraced { F.whole → Makes [] (F.trace files.old) (F.trace files.new)
        (F.bytes_at files.old) (F.bytes_at files.new) }
{
    let named = text_in(&asked.manifest_path);
    let folders = folders_of(alloc, named, env, files)?;
    let folder = locks.real(alloc, folders.found.as_str())?;
    let Folders { pkg_dir, found } = folders;
    let places = Places::of(alloc, found, pkg_dir, folder.as_str(), files)?;
    let is_left = places.is_left(alloc, files)?;
    Ok(Found { places, is_left })
}

/// The folders of a call's package and of its workspace.
#[derive(Drop)]
struct Folders {
    pkg_dir: String,
    found: String,
}

/// The folders of the package and of the workspace. What a guard calls is called in the
/// workspace's, so that it also finds the journal where the workspace's manifest was cut or is
/// reached by a link.
#[tactic(auto, using(hack_places::proofs::LookLemmas::look_steps))]
fn folders_of<F: Files>(
    alloc: Global,
    named: Option<&str>,
    env: &Env,
    files: &mut F,
) -> Result<Folders, LookFault>
    ensures found { IfOk result (λ folders. F.tells
        → (string_bytes folders.pkg_dir ≡ package_of (F.bytes_at files.old) env.now
        (option_map (λ path. path.now) named.entry))
        × (string_bytes folders.found ≡ workspace_of (F.bytes_at files.old) env.now
        (option_map (λ path. path.now) named.entry))) }
    ensures counted { AreLooksCounted (F.failed files.old) (F.failed files.new) result }
    ensures seen { AreLooksSeen F.Files files.old files.new result }
    ensures looked { IfErr result (IsOfLooked (IsFolderLook F.tells (F.bytes_at files.old)
        (option_map (λ path. path.now) named.entry) env.now)) }
    ensures same { F.tells → KeepsAll (F.bytes_at files.old) (F.bytes_at files.new) }
    ensures untraced { F.whole → Makes [] (F.trace files.old) (F.trace files.new)
        (F.bytes_at files.old) (F.bytes_at files.new) }
{
    let dir = env.current_dir.as_str();
    if env.by_guard {
        return Ok(Folders {
            pkg_dir: String::from_str(alloc, dir)?,
            found: String::from_str(alloc, dir)?,
        });
    }
    let pkg_dir = package_dir(alloc, named, dir, files)?;
    let found = workspace(alloc, pkg_dir.as_str(), files)?;
    Ok(Folders { pkg_dir, found })
}
