//! The schedule of a plan: its steps in order, of which each is found as it is taken.

ghost use Rattle.std.specs.Prelude.{◌≡◌, ◌+◌, ◌<◌, ◌≤◌, ◌^◌, Option, IfSome, MatchOption};
ghost use Rattle.std.specs.Prelude.{length, slice_get};
ghost use Rattle.std.specs.Iterator.{YieldsFirst};
ghost use Rattle.hack_session.specs.Histories.{IsStepOf};
ghost use Rattle.hack_session.specs.Schedules.{IsSchedule, all_steps, in_piece, mark as marked};
ghost use Rattle.hack_session.specs.Schedules.{steps_of};
ghost use Rattle.hack_session.specs.Cursors.{steps_left};

use crate::step::Step;
use hack_partition::partition::Partition;
use hack_plan::parts::PlanVersion;
use hack_plan::plan::Plan;
use hack_plan::progress::Progress;

/// How far the steps of a plan were taken: those of all versions before one, and the first ones of
/// that version.
#[derive(Clone, Copy)]
pub(crate) struct Cursor {
    /// The version, as an index into the plan's versions.
    version: usize,
    /// How many of its steps were taken.
    taken: usize,
}

impl Cursor {
    /// Before the first step.
    pub(crate) fn start() -> Cursor
        ensures version { result.version ≡ 0 }
        ensures taken { result.taken ≡ 0 }
    {
        Cursor {
            version: 0,
            taken: 0,
        }
    }

    /// Takes the next step: for each version its preparations and then its places. Those outside
    /// the piece are skipped.
    pub(crate) fn next(&mut self, plan: &Plan, piece: Option<Partition>) -> Option<Step>
        ensures taken { YieldsFirst (steps_left piece plan.now) self.old result self.new }
        ensures of { IfSome result (IsStepOf plan.now) }
    {
        while let Some(version) = plan.versions().get(self.version) {
            if let Some(step) = step_at(plan, piece, version, self.taken) {
                self.taken += 1;
                return Some(step);
            }
            self.version += 1;
            self.taken = 0;
        }
        None
    }
}

/// The step of a version after so many others of it.
fn step_at(
    plan: &Plan,
    piece: Option<Partition>,
    version: &PlanVersion,
    taken: usize,
) -> Option<Step>
    requires order { version.now.first ≤ version.now.end }
    requires within { version.now.end ≤ length plan.now.entries }
    ensures value { result
        ≡ slice_get (steps_of (in_piece piece (length plan.now.entries)) version.now) taken }
    ensures of { IfSome result (IsStepOf plan.now) }
    ensures short { IfSome result (λ _. taken + 1 < 2 ^ 64) }
{
    let total = plan.len();
    let preparations = version.preparations.as_slice();
    if taken < preparations.len() {
        return Some(Step::Prepare(preparations[taken]));
    }
    let place = taken - preparations.len();
    if place >= version.end - version.first {
        return None;
    }
    Some(mark(piece, version.first + place, total))
}

/// The step of a place.
fn mark(piece: Option<Partition>, place: usize, total: usize) -> Step
    requires { place < total }
    ensures { result ≡ marked (in_piece piece total) place }
{
    if is_chosen(piece, place, total) {
        Step::Run(place)
    } else {
        Step::Skip(place)
    }
}

/// Whether the chosen piece of a plan of so many places has the place, or none is chosen.
pub fn is_chosen(piece: Option<Partition>, place: usize, total: usize) -> bool
    requires { place < total }
    ensures { result ≡ in_piece piece total place }
{
    match piece {
        Some(piece) => {
            let progress = Progress {
                total: total as u64,
                count: place as u64,
            };
            progress.in_partition(&piece)
        }
        None => true,
    }
}

/// How many steps a plan has, with any piece; none where there are too many to count.
pub(crate) fn count_steps(plan: &Plan) -> Option<usize>
    ensures schedule { (piece : Option Partition)
        → IsSchedule piece plan.now (all_steps piece plan.now) }
    ensures count { (piece : Option Partition)
        → MatchOption result (2 ^ 64 ≤ length (all_steps piece plan.now))
        (λ n. n ≡ length (all_steps piece plan.now)) }
{
    let mut count: usize = 0;
    for version in plan.versions() {
        count = count.checked_add(version.preparations.len())?;
        count = count.checked_add(version.end - version.first)?;
    }
    Some(count)
}
