//! The plan of an input: its runs in order, kept as blocks with running sums, in which binary
//! search finds a run; and behind them runs that were added one by one.

ghost use Rattle.std.specs.Prelude.{ℕ, ◌≡◌, ◌<◌, ◌^◌, ◌⊎◌, ◌↔◌, ◌∷◌, [], Some, None};
ghost use Rattle.std.specs.Prelude.{false, length, All, AllPairs, Contains, OnOk};
ghost use Rattle.std.specs.Prelude.{IfOk, IfErr, OnErr, IsTrue, ◌++◌, slice_get};
ghost use Rattle.hack_plan.specs.Inputs.{AreVersions, AreVersionsOf, AreCounted, slots_of};
ghost use Rattle.hack_plan.specs.Entries.{ArePlaces, HasTooMany, Lists, IsAdmissible, AreTooMany};
ghost use Rattle.hack_plan.specs.Entries.{AddsEntries, Overfills, IsFull};
ghost use Rattle.hack_plan.specs.Parts.{InVersion};
ghost use Rattle.hack_plan.specs.declared.places.PlacesFault.TheVariants.{Memory as OutOfMemory};

use crate::blocks::{Blocks, MOST_PLACES, VersionUse};
use crate::versions::{PlanInput, Versions};
use hack_versions::version::{Version, VersionRange};
use std::alloc::{AllocError, AllocFailed, Global};
use std::marker::Model;
use thiserror::Error;

/// One run: its version (none without a range), its slot, its package as an index into the chosen
/// ones (none where one run is for all), and its rank among the package's runs.
#[derive(Clone, Copy)]
pub struct PlanEntry {
    pub version: Option<Version>,
    pub slot: usize,
    pub package: Option<usize>,
    pub rank: usize,
}

/// A version, and its places: from the first up to the end, which is the first of the next version.
#[derive(Clone, Copy)]
pub struct Span {
    pub version: Option<Version>,
    pub first: usize,
    pub end: usize,
}

/// Why there is no plan.
#[derive(Debug, Drop, Error)]
pub enum PlacesFault {
    /// There are more than 4294967295 places.
    #[error("too many runs")]
    TooManyRuns,
    #[error("out of memory")]
    Memory,
}

impl From<AllocError> for PlacesFault {
    ghost from_gives = { λ _ e. e ≡ OutOfMemory };

    fn from(_e: AllocError) -> PlacesFault {
        PlacesFault::Memory
    }
}

impl<T: Drop> From<AllocFailed<T>> for PlacesFault {
    ghost from_gives = { λ _ e. e ≡ OutOfMemory };

    fn from(_e: AllocFailed<T>) -> PlacesFault {
        PlacesFault::Memory
    }
}

/// The runs of an input, in order.
#[derive(Drop)]
struct InputPlaces {
    blocks: Blocks,
    spans: Vec<Span>,
}

impl Model for InputPlaces {
    ghost use Rattle.hack_plan.specs.Spans.{Laid};

    ghost Value = { Laid };

    ghost view = { λ p. record { entries = p.blocks; spans = p.spans.items } };
}

/// The runs of an input, in order, and behind them those that were added one by one.
#[derive(Drop)]
pub struct Places {
    laid: InputPlaces,
    added: Vec<PlanEntry>,
}

impl Model for Places {
    ghost use Rattle.std.specs.Prelude.{◌<◌, ◌++◌, ◌^◌, length};
    ghost use Rattle.hack_plan.specs.Spans.{Laid};

    ghost Value = { Laid };

    ghost view = { λ p. record {
      entries = p.laid.entries ++ p.added.items;
      spans = p.laid.spans;
    } };

    ghost invariant = { λ p. length (p.laid.entries ++ p.added.items) < 2 ^ 32 };
}

impl Places {
    ghost use Rattle.hack_plan.specs.Spans.{AreSpans, AreTiled, versions_of};

    /// The plan. `versions` are those of the input, and `counts` the number of runs of each
    /// package; `counts` doesn't matter where one run is for all.
    pub fn new(
        alloc: Global,
        input: &PlanInput,
        versions: &Versions,
        counts: &[usize],
    ) -> Result<Places, PlacesFault>
        requires versions { AreVersionsOf input.now versions.now }
        requires counted { AreCounted input.now counts.now }
        ensures ok { IfOk result (λ p. ArePlaces input.now counts.now versions.now.stable
            p.entries) }
        ensures spans { IfOk result (λ p. AreSpans (versions_of input.now.range
            versions.now.groups.items) p.entries p.spans) }
        ensures tiled { IfOk result (λ p. AreTiled 0 p.spans (length p.entries)) }
        ensures never { IfOk result (λ _. ¬ HasTooMany input.now counts.now versions.now.stable) }
        ensures err { IfErr result (λ e. (e ≡ PlacesFault.Memory)
            ⊎ ((e ≡ PlacesFault.TooManyRuns) × HasTooMany input.now counts.now
            versions.now.stable)) }
    {
        match InputPlaces::new(alloc, input, versions, counts) {
            Ok(laid) => Ok(Places {
                laid,
                added: Vec::new(alloc),
            }),
            Err(fault) => Err(fault),
        }
    }

    /// No place.
    pub fn empty(alloc: Global) -> Places
        ensures entries { result.entries ≡ [] }
        ensures spans { result.spans ≡ [] }
    {
        Places {
            laid: InputPlaces::empty(alloc),
            added: Vec::new(alloc),
        }
    }

    /// The number of places, at most 4294967295.
    pub fn len(&self) -> usize
        ensures value { result ≡ length self.now.entries }
        ensures short { length self.now.entries < 2 ^ 32 }
    {
        self.laid.len() + self.added.len()
    }

    /// Whether there are as many places as a plan may have.
    pub fn is_full(&self) -> bool
        ensures { IsTrue result ↔ IsFull self.now.entries }
    {
        self.len() >= MOST_PLACES
    }

    /// The run at a place.
    pub fn run(&self, place: usize) -> PlanEntry
        requires { place < length self.now.entries }
        ensures { slice_get self.now.entries place ≡ Some result }
    {
        let laid = self.laid.len();
        if place < laid {
            return self.laid.run(place);
        }
        self.added[place - laid]
    }

    /// Each version that some package uses, or "none" without a range, with the places that it had
    /// at first, of which it may have none.
    pub fn versions(&self) -> &[Span]
        ensures { result.now ≡ self.now.spans }
    {
        self.laid.versions()
    }

    /// Appends a run.
    pub fn add(&mut self, entry: PlanEntry) -> Result<(), AllocError>
        requires { ¬ IsFull self.old.entries }
        ensures ok { OnOk result (self.new ≡ record self.old {
          entries = self.old.entries ++ entry ∷ [];
        }) }
        ensures err { OnErr result (self.new ≡ self.old) }
    {
        self.added.push(entry)?;
        Ok(())
    }
}

impl InputPlaces {
    ghost use Rattle.hack_plan.specs.Spans.{AreSpans, AreTiled, versions_of};

    /// The runs, as of `Places`.
    fn new(
        alloc: Global,
        input: &PlanInput,
        versions: &Versions,
        counts: &[usize],
    ) -> Result<InputPlaces, PlacesFault>
        requires versions { AreVersionsOf input.now versions.now }
        requires counted { AreCounted input.now counts.now }
        ensures ok { IfOk result (λ p. ArePlaces input.now counts.now versions.now.stable
            p.entries) }
        ensures spans { IfOk result (λ p. AreSpans (versions_of input.now.range
            versions.now.groups.items) p.entries p.spans) }
        ensures tiled { IfOk result (λ p. AreTiled 0 p.spans (length p.entries)) }
        ensures short { IfOk result (λ p. length p.entries < 2 ^ 32) }
        ensures never { IfOk result (λ _. ¬ HasTooMany input.now counts.now versions.now.stable) }
        ensures err { IfErr result (λ e. (e ≡ PlacesFault.Memory)
            ⊎ ((e ≡ PlacesFault.TooManyRuns) × HasTooMany input.now counts.now
            versions.now.stable)) }
    {
        match input.range {
            None => InputPlaces::without_range(alloc, input, counts),
            Some(range) => InputPlaces::with_range(alloc, input, range, versions, counts),
        }
    }

    /// The number of places, at most 4294967295.
    fn len(&self) -> usize
        ensures value { result ≡ length self.now.entries }
        ensures short { length self.now.entries < 2 ^ 32 }
    {
        self.blocks.len()
    }

    /// The run at a place.
    fn run(&self, place: usize) -> PlanEntry
        requires { place < length self.now.entries }
        ensures { slice_get self.now.entries place ≡ Some result }
    {
        self.blocks.run(place)
    }

    /// Each version that some package uses, or "none" without a range, with its places, of which it
    /// may have none.
    fn versions(&self) -> &[Span]
        ensures { result.now ≡ self.now.spans }
    {
        &self.spans
    }
}

impl InputPlaces {
    ghost use Rattle.hack_plan.specs.Spans.{AreSpans, AreTiled, versions_of};
    ghost use Rattle.hack_plan.specs.Internal.{AppendsPlaces};

    /// No place.
    fn empty(alloc: Global) -> InputPlaces
        ensures entries { result.entries ≡ [] }
        ensures spans { result.spans ≡ [] }
    {
        InputPlaces {
            blocks: Blocks::empty(alloc),
            spans: Vec::new(alloc),
        }
    }

    /// Appends the places of one version.
    fn add(
        &mut self,
        input: &PlanInput,
        version: Option<Version>,
        packages: &[usize],
        counts: &[usize],
    ) -> Result<(), PlacesFault>
        requires increasing { AllPairs (λ a b. a < b) packages.now }
        requires within { input.now.as_cargo ≡ false
            → All (λ p. p < length counts.now) packages.now }
        ensures ok { OnOk result (AddsEntries (InVersion input.now.as_cargo version
            (slots_of input.now version) packages.now counts.now) self.old.entries
            self.new.entries) }
        ensures next { OnOk result (AppendsPlaces version self.old self.new) }
        ensures short { OnOk result (length self.new.entries < 2 ^ 32) }
        ensures err { IfErr result (λ e. (e ≡ PlacesFault.Memory)
            ⊎ ((e ≡ PlacesFault.TooManyRuns) × Overfills (InVersion input.now.as_cargo version
            (slots_of input.now version) packages.now counts.now) self.old.entries)) }
    {
        let first = self.blocks.len();
        let slots = slots(input, version);
        let uses = VersionUse {
            version,
            packages,
            counts,
        };
        if let Err(fault) = self.blocks.add_version(input.as_cargo, slots, &uses) {
            return Err(fault);
        }
        let end = self.blocks.len();
        let span = Span {
            version,
            first,
            end,
        };
        if self.spans.push(span).is_err() {
            return Err(PlacesFault::Memory);
        }
        Ok(())
    }

    /// The plan of an input without a range.
    fn without_range(
        alloc: Global,
        input: &PlanInput,
        counts: &[usize],
    ) -> Result<InputPlaces, PlacesFault>
        requires none { input.now.range ≡ None }
        requires counted { AreCounted input.now counts.now }
        ensures ok { IfOk result (λ p. Lists (IsAdmissible input.now counts.now []) p.entries) }
        ensures spans { IfOk result (λ p. AreSpans (None ∷ []) p.entries p.spans) }
        ensures tiled { IfOk result (λ p. AreTiled 0 p.spans (length p.entries)) }
        ensures short { IfOk result (λ p. length p.entries < 2 ^ 32) }
        ensures err { IfErr result (λ e. (e ≡ PlacesFault.Memory)
            ⊎ ((e ≡ PlacesFault.TooManyRuns) × AreTooMany (IsAdmissible input.now counts.now []))) }
    {
        let all = all_below(alloc, input.packages.len())?;
        let mut places = InputPlaces::empty(alloc);
        match places.add(input, None, &all, counts) {
            Ok(()) => Ok(places),
            Err(fault) => Err(fault),
        }
    }

    /// The plan of an input with a range.
    fn with_range(
        alloc: Global,
        input: &PlanInput,
        range: VersionRange,
        versions: &Versions,
        counts: &[usize],
    ) -> Result<InputPlaces, PlacesFault>
        requires some { input.now.range ≡ Some range }
        requires versions { AreVersions (Some range) input.now versions.now.stable
            versions.now.groups.items }
        requires counted { AreCounted input.now counts.now }
        ensures ok { IfOk result (λ p. ArePlaces input.now counts.now versions.now.stable
            p.entries) }
        ensures spans { IfOk result (λ p. AreSpans (versions_of (Some range)
            versions.now.groups.items) p.entries p.spans) }
        ensures tiled { IfOk result (λ p. AreTiled 0 p.spans (length p.entries)) }
        ensures short { IfOk result (λ p. length p.entries < 2 ^ 32) }
        ensures err { IfErr result (λ e. (e ≡ PlacesFault.Memory)
            ⊎ ((e ≡ PlacesFault.TooManyRuns) × HasTooMany input.now counts.now
            versions.now.stable)) }
    {
        // Only the contract speaks of it.
        let _ = range;
        let mut places = InputPlaces::empty(alloc);
        for group in versions.groups.as_slice() {
            if let Err(fault) = places.add(input, Some(group.version), &group.packages, counts) {
                return Err(fault);
            }
        }
        Ok(places)
    }
}

/// The number of slots of a version: below 1.64 cargo takes one target at a time.
pub fn slots(input: &PlanInput, version: Option<Version>) -> usize
    ensures { result ≡ slots_of input.now version }
{
    let minor = match version {
        Some(version) => version.minor,
        None => input.cargo_minor,
    };
    if input.targets > 0 && minor < 64 {
        input.targets
    } else {
        1
    }
}

/// The numbers below n.
fn all_below(alloc: Global, n: usize) -> Result<Vec<usize>, AllocError>
    ensures rising { IfOk result (λ places. AllPairs (λ p q. p < q) places.items) }
    ensures exact { IfOk result (λ places. (p : ℕ) → Contains places.items p ↔ p < n) }
{
    (0..n).collect(alloc)
}
