//! What may be started at the turn of a run.

ghost use Rattle.std.specs.Prelude.{◌≡◌, ◌≤◌, ◌<◌, IfOk, MatchBool, Some};
ghost use Rattle.std.specs.Prelude.{false, length, map, option_map, slice_get};
ghost use Rattle.hack_lanes.specs.Views.{offer_of};
ghost use Rattle.hack_plan.specs.Commands.{command_of_entry};
ghost use Rattle.hack_process.specs.Commands.{asked_of};
ghost use Rattle.hack_side.specs.Turns.{AreOffers, HasPlace, IsWithin};

use hack_base::copies::copies;
use hack_lanes::job::Job;
use hack_partition::partition::Partition;
use hack_plan::parts::PlanVersion;
use hack_plan::plan::Plan;
use hack_process::process::{End, FakeCaller};
use hack_session::session::is_chosen;
use std::alloc::{AllocError, Global};

/// Which places are offered at a turn.
#[derive(Clone, Copy)]
pub(crate) struct Outlook {
    pub(crate) piece: Option<Partition>,
    /// The place whose turn it is.
    pub(crate) place: usize,
    /// The last place whose command was started.
    pub(crate) last: Option<usize>,
    /// How many commands are offered at most.
    pub(crate) room: usize,
}

impl Outlook {
    /// The commands of the place and of the chosen ones behind it, of the same version, that
    /// weren't started yet. Where memory is refused, there are fewer.
    pub(crate) fn offers(self, alloc: Global, plan: &Plan) -> Vec<Job>
        ensures { AreOffers self.piece plan.now self.place (map offer_of result.items) }
    {
        let mut offers = Vec::new(alloc);
        let first = self.first();
        for place in first..self.end(first, plan) {
            if offers.len() >= self.room {
                return offers;
            }
            if !self.push(alloc, plan, place, &mut offers) {
                return offers;
            }
        }
        offers
    }

    /// The first place from that of the turn on whose command wasn't started.
    fn first(self) -> usize
        ensures { self.place ≤ result }
    {
        match self.last {
            Some(last) => last.saturating_add(1).max(self.place),
            None => self.place,
        }
    }

    /// Where the search for offers stops: it passes as many places as there is room for, times the
    /// number of pieces, and ends with the plan.
    fn end(self, first: usize, plan: &Plan) -> usize {
        let pieces = match self.piece {
            Some(piece) => usize::try_from(piece.count).unwrap_or(usize::MAX),
            None => 1,
        };
        let reach = self.room.saturating_mul(pieces);
        first.saturating_add(reach).min(plan.len())
    }

    /// Offers the command of a place, where it may be started. False where nothing more is to be
    /// offered.
    fn push(self, alloc: Global, plan: &Plan, place: usize, offers: &mut Vec<Job>) -> bool
        requires behind { self.place ≤ place }
        requires offers { AreOffers self.piece plan.now self.place (map offer_of offers.old.items) }
        ensures { AreOffers self.piece plan.now self.place (map offer_of offers.new.items) }
    {
        if place >= plan.len() || !is_within(plan, self.place, place) {
            return false;
        }
        if !is_chosen(self.piece, place, plan.len()) {
            return true;
        }
        let Ok(job) = job(alloc, plan, place) else {
            return false;
        };
        let Ok(()) = offers.push(job) else {
            return false;
        };
        true
    }
}

/// Whether both places are of one version.
fn is_within(plan: &Plan, place: usize, other: usize) -> bool
    ensures { MatchBool result (IsWithin plan.now place other) (Unit {0}) }
{
    for version in plan.versions() {
        if has_both(version, place, other) {
            return true;
        }
    }
    false
}

/// Whether a version has both places.
fn has_both(version: &PlanVersion, place: usize, other: usize) -> bool
    ensures { MatchBool result (HasPlace version.now place × HasPlace version.now other)
        (Unit {0}) }
{
    has_place(version, place) && has_place(version, other)
}

fn has_place(version: &PlanVersion, place: usize) -> bool
    ensures { MatchBool result (HasPlace version.now place) (Unit {0}) }
{
    version.first <= place && place < version.end
}

/// The command of a place, taken down by a caller that runs none.
fn job(alloc: Global, plan: &Plan, place: usize) -> Result<Job, AllocError>
    requires { place < length plan.now.entries }
    ensures place { IfOk result (λ job. job.place ≡ place) }
    ensures asked { IfOk result (λ job.
        option_map (λ entry. asked_of false (command_of_entry plan.now entry))
        (slice_get plan.now.entries place) ≡ Some (offer_of job).asked) }
{
    let run = plan.run(alloc, place)?;
    let mut scribe = FakeCaller::new(alloc, End::Status(0));
    let Ok(()) = run.command.run(alloc, &mut scribe, plan.dir()) else {
        return Err(AllocError);
    };
    let Some(made) = scribe.made().first() else {
        return Err(AllocError);
    };
    Ok(Job {
        place,
        program: String::from_str(alloc, made.program.as_str())?,
        words: copies(alloc, &made.words)?,
    })
}
