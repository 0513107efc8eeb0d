//! The places of a plan as blocks with running sums: a block has the runs of one version, slot and
//! package.

ghost use Rattle.std.specs.Prelude.{true, false, ◌≡◌, ◌<◌, ◌^◌, ◌⊎◌, [], length, All};
ghost use Rattle.std.specs.Prelude.{AllPairs, OnOk, IfErr, slice_get};
ghost use Rattle.hack_plan.specs.Entries.{AddsEntries, Overfills};
ghost use Rattle.hack_plan.specs.Parts.{InSlotsOf, InVersion};
ghost use Rattle.hack_plan.specs.Internal.{InBlock, InSlotOf};

use crate::places::{PlacesFault, PlanEntry};
use hack_versions::version::Version;
use std::alloc::Global;
use std::marker::Model;

/// How many places a plan may have.
pub(crate) const MOST_PLACES: usize = 4_294_967_295;

/// The runs of one version, slot and package, and the number of places up to and including them.
#[derive(Drop)]
pub struct Block {
    version: Option<Version>,
    slot: usize,
    package: Option<usize>,
    runs: usize,
    end: usize,
}

/// A version, and the packages that use it, as indices of the chosen ones.
#[derive(Clone, Copy)]
pub struct VersionUse<'a> {
    pub version: Option<Version>,
    pub packages: &'a [usize],
    /// The number of runs of each chosen package.
    pub counts: &'a [usize],
}

/// Blocks, each with the number of places up to and including it.
#[derive(Drop)]
pub struct Blocks {
    blocks: Vec<Block>,
    total: usize,
}

impl Model for Blocks {
    ghost use Rattle.std.specs.Prelude.{List};
    ghost use Rattle.hack_plan.specs.declared.places.PlanEntry.{PlanEntry};
    ghost use Rattle.hack_plan.specs.Blocks.{entries_of, AreSums};

    ghost Value = { List PlanEntry };

    ghost view = { λ p. entries_of p.blocks.items };

    ghost invariant = { λ p. AreSums p.blocks.items p.total };
}

impl Blocks {
    /// No block.
    pub fn empty(alloc: Global) -> Blocks
        ensures { result ≡ [] }
    {
        Blocks {
            blocks: Vec::new(alloc),
            total: 0,
        }
    }

    /// The number of places, at most 4294967295.
    pub fn len(&self) -> usize
        ensures value { result ≡ length self.now }
        ensures short { length self.now < 2 ^ 32 }
    {
        self.total
    }

    /// The run at a place.
    pub fn run(&self, place: usize) -> PlanEntry
        requires { place < length self.now }
        ensures { slice_get self.now place ≡ Some result }
    {
        let at = self.blocks.partition_point(|block| block.end <= place);
        let block = &self.blocks[at];
        PlanEntry {
            version: block.version,
            slot: block.slot,
            package: block.package,
            rank: place - (block.end - block.runs),
        }
    }

    fn push(
        &mut self,
        version: Option<Version>,
        slot: usize,
        member: Option<usize>,
        runs: usize,
    ) -> Result<(), PlacesFault>
        ensures ok { OnOk result (AddsEntries (InBlock version slot member runs)
            self.old self.new) }
        ensures err { IfErr result (λ e. (e ≡ PlacesFault.Memory)
            ⊎ ((e ≡ PlacesFault.TooManyRuns) × Overfills (InBlock version slot member runs)
            self.old)) }
    {
        let end = match self.total.checked_add(runs) {
            Some(end) if end <= MOST_PLACES => end,
            _ => return Err(PlacesFault::TooManyRuns),
        };
        let block = Block {
            version,
            slot,
            package: member,
            runs,
            end,
        };
        if self.blocks.push(block).is_err() {
            return Err(PlacesFault::Memory);
        }
        self.total = end;
        Ok(())
    }

    /// The places of one version and slot.
    fn add_slot(&mut self, slot: usize, uses: &VersionUse<'_>) -> Result<(), PlacesFault>
        requires increasing { AllPairs (λ a b. a < b) uses.now.packages.now }
        requires within { All (λ p. p < length uses.now.counts.now) uses.now.packages.now }
        ensures ok { OnOk result (AddsEntries (InSlotOf uses.now slot) self.old self.new) }
        ensures err { IfErr result (λ e. (e ≡ PlacesFault.Memory)
            ⊎ ((e ≡ PlacesFault.TooManyRuns) × Overfills (InSlotOf uses.now slot) self.old)) }
    {
        for member in uses.packages {
            let runs = uses.counts[*member];
            if let Err(fault) = self.push(uses.version, slot, Some(*member), runs) {
                return Err(fault);
            }
        }
        Ok(())
    }

    /// The places of one version.
    pub fn add_version(
        &mut self,
        whole: bool,
        slots: usize,
        uses: &VersionUse<'_>,
    ) -> Result<(), PlacesFault>
        requires increasing { AllPairs (λ a b. a < b) uses.now.packages.now }
        requires within { whole ≡ false
            → All (λ p. p < length uses.now.counts.now) uses.now.packages.now }
        ensures ok { OnOk result (AddsEntries (InSlotsOf whole uses.now slots) self.old self.new) }
        ensures err { IfErr result (λ e. (e ≡ PlacesFault.Memory)
            ⊎ ((e ≡ PlacesFault.TooManyRuns) × Overfills (InSlotsOf whole uses.now slots)
            self.old)) }
    {
        if whole {
            self.add_single(uses.version, slots)
        } else {
            self.add_packages(slots, uses)
        }
    }

    /// One place in each slot.
    fn add_single(&mut self, version: Option<Version>, slots: usize) -> Result<(), PlacesFault>
        ensures ok { OnOk result (AddsEntries (InVersion true version slots [] []) self.old
            self.new) }
        ensures err { IfErr result (λ e. (e ≡ PlacesFault.Memory)
            ⊎ ((e ≡ PlacesFault.TooManyRuns) × Overfills (InVersion true version slots [] [])
            self.old)) }
    {
        for slot in 0..slots {
            if let Err(fault) = self.push(version, slot, None, 1) {
                return Err(fault);
            }
        }
        Ok(())
    }

    /// The places of all packages in each slot.
    fn add_packages(&mut self, slots: usize, uses: &VersionUse<'_>) -> Result<(), PlacesFault>
        requires increasing { AllPairs (λ a b. a < b) uses.now.packages.now }
        requires within { All (λ p. p < length uses.now.counts.now) uses.now.packages.now }
        ensures ok { OnOk result (AddsEntries (InSlotsOf false uses.now slots) self.old self.new) }
        ensures err { IfErr result (λ e. (e ≡ PlacesFault.Memory)
            ⊎ ((e ≡ PlacesFault.TooManyRuns) × Overfills (InSlotsOf false uses.now slots)
            self.old)) }
    {
        for slot in 0..slots {
            if let Err(fault) = self.add_slot(slot, uses) {
                return Err(fault);
            }
        }
        Ok(())
    }
}
