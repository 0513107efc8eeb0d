//! What a call runs: the plan of what is loaded, handed out to a runner, or searched by one; or what
//! a search for conflicts builds.

ghost use Rattle.std.specs.Prelude.{ℕ, ◌≡◌, ◌⊎◌, IfErr, IfOk, IsSome, List, None, map};
ghost use Rattle.hack_planner.specs.CallPlan.{IsCauseOf, IsPackagesCause, IsPlanOf, IsSureCauseOf};
ghost use Rattle.hack_hunt.specs.Hunts.{RanHunts, came_of, spots_of};
ghost use Rattle.hack_hunt.specs.Searched.{IsSearchPlanOf};
ghost use Rattle.hack_plan.specs.Commands.{slots_in};
ghost use Rattle.hack_load.specs.ContextView.{context_view};
ghost use Rattle.hack_plan.specs.View.{PlanView};
ghost use Rattle.hack_base.specs.Notes.{Note, note_of};
ghost use Rattle.hack_msrv.specs.Searches.{IsSearched};
ghost use Rattle.hack_drive.specs.Headline.{IsHandedOut};
ghost use Rattle.hack_drive.specs.Answered.{IsAnswered};
ghost use Rattle.hack_drive.specs.Warnings.{TellsNotes};

use crate::notices::tell_all;
use hack_base::notice::Notice;
use hack_base::writes::Sink;
use hack_culprits::fault::CulpritsFault;
use hack_hunt::hunt::{Hunted, hunt_all};
use hack_hunt::plan::{SearchPlan, search_plan_of};
use hack_lanes::turns::Turns;
use hack_load::context::Context;
use hack_msrv::found::Found;
use hack_msrv::search::find_versions;
use hack_plan::plan::Plan;
use hack_planner::fault::PlanFault;
use hack_planner::plan::plan_of;
use hack_planner::stable::Stable;
use hack_process::process::Caller;
use hack_session::session::{Lines, Lister, Runner, Session, Starter, drive_plan};
use hack_side::judge::Judge;
use hack_side::serial::Serial;
use hack_side::side::Side;
use std::alloc::Global;

/// A runner that also prints notices for the user.
pub trait Teller: Runner {
    /// A relation of the runner before and after these notices were printed.
    ghost told: { List Note → Self → Self → Type 0 };

    /// Prints notices, in order.
    fn tell(&mut self, notices: &[Notice])
        ensures { told (map note_of notices.now) self.old self.new };
}

/// Makes the plan of a context, prints its notices, and hands out the steps of the chosen piece to
/// their end. `rustup` is rustup's program; `stable` is asked for where the range needs it.
pub fn drive_context<R: Teller>(
    alloc: Global,
    cx: &Context,
    rustup: &str,
    stable: Stable,
    runner: &mut R,
) -> Result<Session, PlanFault>
    requires { IsAnswered (context_view cx.now).args stable }

    // The runs handed out are the chosen piece of the plan, in order, each place once, until a
    // preparation fails, a run fails and runs don't go on, or the piece ends. The plan is exactly
    // the admissible runs, in order; each of its places is in exactly one of the pieces, and the
    // blocks joined are the plan. A package's powerset is exactly the sets that its rules list, each
    // once. With a strength it is a sample of them; then each pattern of at most that many candidates
    // that some listed set shows has a place in the plan, for each package, version and slot.
    ensures headline { IfOk result
        (IsHandedOut (context_view cx.now) stable) }

    // The session's plan is the call's, with its commands, versions and preparations. The runner
    // printed just its notices, and was then handed just these steps with these outcomes, in order.
    ensures ran { IfOk result (λ s. (notes : List Note) × (mid : R)
        × IsPlanOf (context_view cx.now).args.subcommand stable (context_view cx.now) rustup.now
        s.plan notes
        × R.told notes runner.old mid × R.ran s.plan s.handed mid runner.new) }

    // Where a session is returned no cause holds; an error is a cause that holds, or memory was
    // refused. (With a strength the number of runs is that of the sample that was found: a session
    // then rules out just the causes that hold whatever sample is found.)
    ensures never { IfOk result (λ _. (e : PlanFault)
        → ¬ IsSureCauseOf (context_view cx.now).args.subcommand stable (context_view cx.now) e) }
    ensures err { IfErr result (λ e. (e ≡ PlanFault.Memory)
        ⊎ IsCauseOf (context_view cx.now).args.subcommand stable (context_view cx.now) e) }

    // Where the call is refused, nothing was handed out: nothing was done at all, or memory was
    // refused after the plan was made, and the runner printed just its notices.
    ensures refused { IfErr result (λ e. (runner.new ≡ runner.old)
        ⊎ ((e ≡ PlanFault.Memory) × (plan : PlanView) × (notes : List Note)
        × IsPlanOf (context_view cx.now).args.subcommand stable (context_view cx.now) rustup.now
        plan notes × R.told notes runner.old runner.new)) }
{
    let (plan, notices) = plan_of(alloc, cx, rustup, stable)?;
    runner.tell(notices.as_slice());
    let keep_going = cx.args().keep_going;
    let session = drive_plan(alloc, plan, cx.args().partition, keep_going, runner)?;
    Ok(session)
}

/// Makes the plan of a context, prints its notices, and searches for the least version of each
/// package of the plan. `rustup` and `stable` are as for `drive_context`.
pub fn search_context<R: Teller + Judge>(
    alloc: Global,
    cx: &Context,
    rustup: &str,
    stable: Stable,
    runner: &mut R,
) -> Result<(Plan, Vec<Found>), PlanFault>
    requires { IsAnswered (context_view cx.now).args stable }

    // The plan is the call's, with its commands, versions and preparations. The runner printed just
    // its notices, and was then handed just the steps of a search for the least version of each of
    // its packages, which says what is found.
    ensures ran { IfOk result (λ answer. (notes : List Note) × (mid : R)
        × IsPlanOf (context_view cx.now).args.subcommand stable (context_view cx.now) rustup.now
        answer.0 notes × R.told notes runner.old mid
        × IsSearched R.ran R.ended answer.0 answer.1.items mid runner.new) }

    // Errors are those of `drive_context`.
    ensures never { IfOk result (λ _. (e : PlanFault)
        → ¬ IsSureCauseOf (context_view cx.now).args.subcommand stable (context_view cx.now) e) }
    ensures err { IfErr result (λ e. (e ≡ PlanFault.Memory)
        ⊎ IsCauseOf (context_view cx.now).args.subcommand stable (context_view cx.now) e) }
    ensures refused { IfErr result (λ e. (runner.new ≡ runner.old)
        ⊎ ((e ≡ PlanFault.Memory) × (plan : PlanView) × (notes : List Note)
        × IsPlanOf (context_view cx.now).args.subcommand stable (context_view cx.now) rustup.now
        plan notes × R.told notes runner.old runner.new)) }
{
    let (plan, notices) = plan_of(alloc, cx, rustup, stable)?;
    runner.tell(notices.as_slice());
    let found = find_versions(alloc, &plan, runner)?;
    Ok((plan, found))
}

/// What came of a search for conflicts.
#[derive(Drop)]
pub struct Hunt {
    /// The plan, with all that was built.
    pub plan: Plan,
    /// What was found, package after package for each slot; or why a search was cut short.
    pub found: Result<Vec<Hunted>, CulpritsFault>,
}

/// Prints the notices of a search for conflicts, and searches among the sets of each chosen package,
/// for each slot. `rustup` is as for `drive_context`.
pub fn hunt_context<R: Teller + Judge>(
    alloc: Global,
    cx: &Context,
    rustup: &str,
    runner: &mut R,
) -> Result<Hunt, PlanFault>
    // The plan begins with the chosen packages without runs. The runner printed just its notices. Each
    // package was then searched in each slot, one after another, by its rules; the plan grew by just
    // the runs that the searches built, and these were handed out, in order, none after a broken one.
    ensures ran { IfOk result (λ hunt. (notes : List Note) × (mid : R) × (ids : List ℕ)
        × (start : PlanView) × IsSearchPlanOf (context_view cx.now).args.subcommand
        (context_view cx.now) rustup.now start ids notes
        × R.told notes runner.old mid
        × RanHunts R.ran R.ended (context_view cx.now) (context_view cx.now).args.most_runs
        (spots_of ids (slots_in start.call None)) (came_of hunt.found) start hunt.plan
        mid runner.new) }

    // A refused call handed out nothing.
    ensures err { IfErr result (λ e. (e ≡ PlanFault.Memory)
        ⊎ (IsSome (context_view cx.now).args.subcommand
        × IsPackagesCause (context_view cx.now) e)) }
    ensures refused { IfErr result (λ e. runner.new ≡ runner.old) }
{
    let SearchPlan {
        mut plan,
        ids,
        notices,
    } = search_plan_of(alloc, cx, rustup)?;
    runner.tell(notices.as_slice());
    let most_runs = cx.args().most_runs;
    let found = hunt_all(alloc, cx, ids.as_slice(), most_runs, &mut plan, runner);
    Ok(Hunt { plan, found })
}

impl<C: Caller, O: Sink, E: Sink> Teller for Starter<'_, C, O, E> {
    ghost told = { λ notes a b. TellsNotes E.Sink notes a b };

    fn tell(&mut self, notices: &[Notice]) {
        tell_all(notices, self.term, self.err);
    }
}

impl<L: Turns, O: Sink, E: Sink> Teller for Side<'_, L, O, E> {
    ghost told = { λ notes a b. (b.piece ≡ a.piece) × TellsNotes E.Sink notes a.starter b.starter };

    fn tell(&mut self, notices: &[Notice]) {
        self.starter.tell(notices);
    }
}

impl<L: Turns, O: Sink, E: Sink> Teller for Serial<'_, L, O, E> {
    ghost told = { λ notes a b. TellsNotes E.Sink notes a.starter b.starter };

    fn tell(&mut self, notices: &[Notice]) {
        self.starter.tell(notices);
    }
}

impl<W: Lines, R: Teller> Teller for Lister<'_, W, R> {
    ghost told = { λ notes a b. (a.out.ghost_name ≡ b.out.ghost_name)
        × (a.runner.ghost_name ≡ b.runner.ghost_name)
        × (b.out.now ≡ a.out.now)
        × (b.refused ≡ a.refused)
        × R.told notes a.runner.now b.runner.now };

    fn tell(&mut self, notices: &[Notice]) {
        self.runner.tell(notices);
    }
}
