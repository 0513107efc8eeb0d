//! The plan of a call: its runs in order, each with its command, and the versions that they belong
//! to.

ghost use Rattle.std.specs.Prelude.{◌≡◌, ◌<◌, ◌^◌, Some, None, length, slice_get, option_map};
ghost use Rattle.std.specs.Prelude.{IfOk, IfSome, string_bytes, map};
ghost use Rattle.hack_plan.specs.Spans.{AreTiled};
ghost use Rattle.hack_process.specs.Commands.{command_of};
ghost use Rattle.hack_process.specs.CommandTexts.{listed_of};
ghost use Rattle.hack_plan.specs.Prepared.{span_of};
ghost use Rattle.hack_plan.specs.View.{call_view, plan_package_view};
ghost use Rattle.hack_plan.specs.Commands.{HasCollected, command_of_entry, clean_command};
ghost use Rattle.hack_plan.specs.Commands.{lockfile_command, chosen_package_at, name_in};
ghost use Rattle.hack_plan.specs.Commands.{ranked_command, slot_target, slots_in};
ghost use Rattle.hack_plan.specs.Lines.{command_in, listed_text};
ghost use Rattle.hack_plan.specs.Plans.{counts_in, AreRunsOfPackages};

use crate::additions::{add_run, end_last, reserve_run};
pub use crate::commands::toolchain;
pub use crate::line::RunLine;
use crate::parts::{CommandParts, PlanPackage, PlanVersion};
use crate::places::{Places, PlacesFault, PlanEntry};
use crate::prepared::prepared;
pub use crate::runs::Added;
use crate::versions::{PlanInput, Versions};
use hack_process::process::ProcessBuilder;
use hack_versions::version::Version;
use std::alloc::{AllocError, Global};
use std::marker::Model;

/// What is run, in order.
#[derive(Drop)]
pub struct Plan {
    words: CommandParts,
    packages: Vec<PlanPackage>,
    versions: Vec<PlanVersion>,
    places: Places,
}

impl Model for Plan {
    ghost use Rattle.std.specs.Prelude.{map, length};
    ghost use Rattle.hack_plan.specs.Spans.{AreTiled};
    ghost use Rattle.hack_plan.specs.View.{PlanView, call_view, plan_package_view};
    ghost use Rattle.hack_plan.specs.Plans.{AreRunsOfPackages};
    ghost use Rattle.hack_plan.specs.Prepared.{span_of};

    ghost Value = { PlanView };

    ghost view = { λ p. record {
      call = call_view p.words;
      packages = map plan_package_view p.packages.items;
      versions = p.versions.items;
      entries = p.places.entries;
    } };

    ghost invariant = { λ p. AreRunsOfPackages (map plan_package_view p.packages.items)
        p.places.entries
        × AreTiled 0 (map span_of p.versions.items) (length p.places.entries) };
}

/// A place of a plan.
#[derive(Drop)]
pub struct PlannedCommand<'a> {
    pub entry: PlanEntry,
    /// The package's name; none where the run is for all packages.
    pub name: Option<&'a str>,
    pub command: ProcessBuilder<'a>,
}

impl Plan {
    /// The number of places, at most 4294967295.
    pub fn len(&self) -> usize
        ensures value { result ≡ length self.now.entries }
        ensures short { length self.now.entries < 2 ^ 32 }

        // Each place has a run that there is.
        ensures runs { AreRunsOfPackages self.now.packages self.now.entries }
    {
        self.places.len()
    }

    /// Each version that some package uses, or the single "none" without a range, in order, with
    /// what is done before its runs. A version may have no place.
    pub fn versions(&self) -> &[PlanVersion]
        ensures value { result.now ≡ self.now.versions }

        // The places of each version begin where those before end, from the first place to the
        // last.
        ensures tiled { AreTiled 0 (map span_of self.now.versions) (length self.now.entries) }
    {
        self.versions.as_slice()
    }

    /// The chosen packages.
    pub fn packages(&self) -> &[PlanPackage]
        ensures { map plan_package_view result.now ≡ self.now.packages }
    {
        self.packages.as_slice()
    }

    /// The version, slot, package and rank of a place.
    pub fn entry(&self, place: usize) -> PlanEntry
        requires { place < length self.now.entries }
        ensures { slice_get self.now.entries place ≡ Some result }
    {
        self.places.run(place)
    }

    /// The run at a place, with its command.
    pub fn run(&self, alloc: Global, place: usize) -> Result<PlannedCommand<'_>, AllocError>
        requires { place < length self.now.entries }
        ensures entry { IfOk result (λ run. slice_get self.now.entries place ≡ Some run.entry) }
        ensures name { IfOk result (λ run. option_map (λ name. name.now) run.name
            ≡ name_in (chosen_package_at self.now.packages run.entry.package)) }
        ensures command { IfOk result (λ run. command_of run.command
            ≡ command_of_entry self.now run.entry) }
    {
        let entry = self.places.run(place);
        let line = self.line(alloc, place)?;
        Ok(PlannedCommand {
            entry,
            name: self.name_of(entry),
            command: line.command(alloc)?,
        })
    }

    /// The line of the run at a place in a list of commands: that of its command, which isn't made.
    pub fn line(&self, alloc: Global, place: usize) -> Result<RunLine<'_>, AllocError>
        requires { place < length self.now.entries }
        ensures text { IfOk result (λ line. option_map (λ entry. listed_of self.now.call.dir
            (command_of_entry self.now entry)) (slice_get self.now.entries place)
            ≡ Some (listed_text line)) }
        ensures command { IfOk result (λ line. option_map (command_of_entry self.now)
            (slice_get self.now.entries place) ≡ Some (command_in line)) }
    {
        let entry = self.entry(place);
        match self.package_of(entry) {
            None => Ok(RunLine::whole(alloc, &self.words, entry.version, entry.slot)),
            Some(member) => self.of_package(alloc, entry, member),
        }
    }

    /// The package of a run.
    fn package_of(&self, entry: PlanEntry) -> Option<&PlanPackage>
        ensures { option_map (λ k. plan_package_view k.now) result
            ≡ chosen_package_at self.now.packages entry.package }
    {
        match entry.package {
            None => None,
            Some(p) => self.packages.get(p),
        }
    }

    /// The name of a run's package.
    fn name_of(&self, entry: PlanEntry) -> Option<&str>
        ensures { option_map (λ name. name.now) result
            ≡ name_in (chosen_package_at self.now.packages entry.package) }
    {
        match self.package_of(entry) {
            Some(member) => Some(member.name.as_str()),
            None => None,
        }
    }

    /// A package's run.
    fn of_package<'a>(
        &'a self,
        alloc: Global,
        entry: PlanEntry,
        member: &'a PlanPackage,
    ) -> Result<RunLine<'a>, AllocError>
        requires { entry.rank < length (plan_package_view member.now).runs }
        ensures dir { IfOk result (λ line. (call_view line.words.now).dir
            ≡ self.now.call.dir) }
        ensures command { IfOk result (λ line. command_in line
            ≡ ranked_command self.now.call entry.version entry.slot (Some
            (plan_package_view member.now))
            entry.rank) }
    {
        let mut positions = Vec::with_capacity(alloc, member.candidates.len())?;
        let run = member.runs.run(entry.rank, &mut positions)?;
        Ok(RunLine::of_package(
            &self.words,
            entry.version,
            entry.slot,
            member,
            run,
            positions,
        ))
    }

    /// The command that removes all artifacts, before the runs of a version.
    pub fn cleaning(&self, alloc: Global) -> Result<ProcessBuilder<'_>, AllocError>
        ensures { IfOk result (λ command. command_of command ≡ clean_command self.now.call None) }
    {
        self.words.cleaning(alloc, None)
    }

    /// The command that removes the artifacts of a place's package before its run, or all artifacts
    /// where the run is for all packages.
    pub fn run_cleaning(
        &self,
        alloc: Global,
        place: usize,
    ) -> Result<ProcessBuilder<'_>, AllocError>
        requires { place < length self.now.entries }
        ensures { IfOk result (λ command. IfSome (slice_get self.now.entries place)
            (λ q. command_of command
            ≡ clean_command self.now.call (chosen_package_at self.now.packages q.package))) }
    {
        let entry = self.places.run(place);
        self.words.cleaning(alloc, self.package_of(entry))
    }

    /// The command that regenerates the lockfile with the cargo of a version.
    pub fn lockfile(
        &self,
        alloc: Global,
        version: Version,
    ) -> Result<ProcessBuilder<'_>, AllocError>
        ensures { IfOk result (HasCollected (lockfile_command self.now.call version)) }
    {
        self.words.lockfile(alloc, version)
    }

    /// The program to run as rustup.
    pub fn rustup(&self) -> &str
        ensures { result.now ≡ self.now.call.rustup }
    {
        self.words.rustup.as_str()
    }

    /// The targets, in the order of their bytes.
    pub fn targets(&self) -> &[String]
        ensures { map string_bytes result.now ≡ self.now.call.targets }
    {
        self.words.targets.as_slice()
    }

    /// The target of a slot that has one of its own.
    pub fn slot_target(&self, version: Option<Version>, slot: usize) -> Option<&str>
        ensures { option_map (λ target. target.now) result
            ≡ slot_target self.now.call version slot }
    {
        self.words.slot_target(version, slot)
    }

    /// How many slots there are without a version.
    pub fn slots(&self) -> usize
        ensures { result ≡ slots_in self.now.call None }
    {
        self.words.slots(None)
    }

    /// The current folder; messages show paths relative to it.
    pub fn dir(&self) -> &str
        ensures { result.now ≡ self.now.call.dir }
    {
        self.words.dir.as_str()
    }

    /// Whether places are added while the plan is run, so that the number of all isn't shown.
    pub fn grows(&self) -> bool
        ensures { result ≡ self.now.call.grows }
    {
        self.words.grows
    }

    /// Whether a package's artifacts are removed before each of its runs.
    pub fn cleans_per_run(&self) -> bool
        ensures { result ≡ self.now.call.clean_per_run }
    {
        self.words.clean_per_run
    }
}

impl Plan {
    ghost use Rattle.std.specs.Prelude.{◌⊎◌, ◌∷◌, IfErr, []};
    ghost use Rattle.hack_plan.specs.Inputs.{AreVersionsOf};
    ghost use Rattle.hack_plan.specs.Spans.{AreSpans, versions_of};
    ghost use Rattle.hack_plan.specs.Entries.{ArePlaces, HasTooMany};
    ghost use Rattle.hack_plan.specs.View.{call_view};
    ghost use Rattle.hack_plan.specs.Plans.{counts_in};
    ghost use Rattle.hack_plan.specs.Prepared.{ArePrepared};

    /// The plan without a version, for a call without a subcommand.
    pub fn empty(alloc: Global, words: CommandParts) -> Plan
        ensures call { result.call ≡ call_view words }
        ensures packages { result.packages ≡ [] }
        ensures versions { result.versions ≡ [] }
        ensures entries { result.entries ≡ [] }
    {
        Plan {
            words,
            packages: Vec::new(alloc),
            versions: Vec::new(alloc),
            places: Places::empty(alloc),
        }
    }

    /// The plan of these packages without a place, to which a search adds runs. Its single version is
    /// none, and has no preparation.
    pub fn without_places(
        alloc: Global,
        words: CommandParts,
        packages: Vec<PlanPackage>,
    ) -> Result<Plan, AllocError>
        ensures call { IfOk result (λ plan. plan.call ≡ call_view words) }
        ensures packages { IfOk result (λ plan. plan.packages
            ≡ map plan_package_view packages.items) }
        ensures entries { IfOk result (λ plan. plan.entries ≡ []) }
        ensures spans { IfOk result (λ plan. map span_of plan.versions
            ≡ record { version = None; first = 0; end = 0 } ∷ []) }
        ensures prepared { IfOk result (λ plan. map (λ v. v.preparations.items) plan.versions
            ≡ [] ∷ []) }
    {
        let mut versions = Vec::with_capacity(alloc, 1)?;
        versions.push(PlanVersion {
            version: None,
            preparations: Vec::new(alloc),
            first: 0,
            end: 0,
        })?;
        Ok(Plan {
            words,
            packages,
            versions,
            places: Places::empty(alloc),
        })
    }

    /// The plan of an input with these packages and versions.
    pub fn of_input(
        alloc: Global,
        words: CommandParts,
        packages: Vec<PlanPackage>,
        input: &PlanInput,
        versions: &Versions,
    ) -> Result<Plan, PlacesFault>
        requires versions { AreVersionsOf input.now versions.now }
        requires packages { length packages.items ≡ length input.now.packages.items }
        ensures call { IfOk result (λ plan. plan.call ≡ call_view words) }
        ensures packages { IfOk result (λ plan. plan.packages
            ≡ map plan_package_view packages.items) }
        ensures entries { IfOk result (λ plan. ArePlaces input.now (counts_in packages.items)
            versions.now.stable plan.entries) }
        ensures spans { IfOk result (λ plan. AreSpans (versions_of input.now.range
            versions.now.groups.items) plan.entries (map span_of plan.versions)) }
        ensures tiled { IfOk result (λ plan.
            AreTiled 0 (map span_of plan.versions) (length plan.entries)) }
        ensures prepared { IfOk result (λ plan.
            ArePrepared words.locked words.clean_per_version plan.versions) }
        ensures never { IfOk result (λ _. ¬ HasTooMany input.now (counts_in packages.items)
            versions.now.stable) }
        ensures err { IfErr result (λ e. (e ≡ PlacesFault.Memory)
            ⊎ ((e ≡ PlacesFault.TooManyRuns) × HasTooMany input.now (counts_in packages.items)
            versions.now.stable)) }
    {
        let counts = counts(alloc, packages.as_slice())?;
        let places = Places::new(alloc, input, versions, counts.as_slice())?;
        let versions = prepared(
            alloc,
            places.versions(),
            words.locked,
            words.clean_per_version,
        )?;
        Ok(Plan {
            words,
            packages,
            versions,
            places,
        })
    }
}

impl Plan {
    ghost use Rattle.std.specs.Prelude.{IfErr, OnErr, OnOk};
    ghost use Rattle.hack_plan.specs.AddedRuns.{added_run};
    ghost use Rattle.hack_plan.specs.Entries.{IsFull};
    ghost use Rattle.hack_plan.specs.Growth.{IsGrown, RefusesRun, with_run};

    /// Appends a run to those of a package, and a place for it, which it returns: the last place,
    /// in this slot, without a version, which becomes one of the last version's.
    pub fn grow(&mut self, slot: usize, member: usize, run: Added) -> Result<usize, PlacesFault>
        requires version { 0 < length self.old.versions }
        requires member { member < length self.old.packages }
        ensures place { IfOk result (λ place. place ≡ length self.old.entries) }
        ensures ok { OnOk result (self.new ≡ with_run slot member (added_run run) self.old) }
        ensures grown { OnOk result (IsGrown self.old self.new) }
        ensures never { OnOk result (¬ IsFull self.old.entries) }
        ensures err { IfErr result (RefusesRun self.old.entries) }
        ensures same { OnErr result (self.new ≡ self.old) }
    {
        if self.places.is_full() {
            return Err(PlacesFault::TooManyRuns);
        }
        let place = self.places.len();
        let rank = reserve_run(&mut self.packages, member)?;
        let entry = PlanEntry {
            package: Some(member),
            version: None,
            slot,
            rank,
        };
        self.places.add(entry)?;
        // What follows takes no memory, so nothing is left half done.
        add_run(&mut self.packages, member, run);
        end_last(&mut self.versions, place + 1);
        Ok(place)
    }
}

/// The number of runs of each package.
fn counts(alloc: Global, packages: &[PlanPackage]) -> Result<Vec<usize>, AllocError>
    ensures { IfOk result (λ counts. counts.items ≡ counts_in packages.now) }
{
    let mut counts = Vec::with_capacity(alloc, packages.len())?;
    for member in packages {
        counts.push(member.runs.len())?;
    }
    Ok(counts)
}
