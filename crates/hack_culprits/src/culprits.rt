//! The search for the conflicts of one package.

ghost use Rattle.std.specs.Prelude.{IfErr, IfOk};
ghost use Rattle.hack_closures.specs.View.{search_of};
ghost use Rattle.hack_conflicts.specs.Rules.{IsPreorder};
ghost use Rattle.hack_conflicts.specs.Runs.{finding_of};
ghost use Rattle.hack_culprits.specs.Built.{HasRoom, IsCutShort, RanHunt};

use crate::aim::Aim;
use crate::builder::Builder;
use crate::fault::CulpritsFault;
use hack_conflicts::{Found, SearchFault, find_conflicts};
use hack_plan::plan::Plan;
use hack_side::judge::Judge;
use std::alloc::Global;

/// Searches for the least sets of a package's features that fail, and the greatest that pass, in a slot.
/// What is built becomes the last place of the plan. At most `most_runs` sets are asked for, if that is
/// given.
///
/// # Errors
///
/// `Ended` after a run with which the runner's call is at its end, `TooManyRuns` where the plan can't
/// grow, and `Memory` where memory is refused. What was built until then has its places in the plan.
pub fn find_culprits<R: Judge>(
    alloc: Global,
    aim: Aim<'_>,
    most_runs: Option<usize>,
    plan: &mut Plan,
    runner: &mut R,
) -> Result<Found, CulpritsFault>
    requires room { HasRoom aim.member plan.old }
    requires order { IsPreorder (search_of aim.closures.now) }

    // The plan grew by the runs that were built, each once, and these were handed out, in order. Each
    // set that the search asked for has its run among them, none is broken, and what is found is what
    // their outcomes say.
    ensures found { IfOk result (λ found. RanHunt R.ran R.ended aim.entry most_runs (finding_of found)
        plan.old plan.new runner.old runner.new) }

    // After an error, too, no others were built than such a search asks for. It is `Ended` just where
    // a run was broken, after which none was built.
    ensures fault { IfErr result (λ fault. IsCutShort R.ran R.ended aim.entry most_runs fault
        plan.old plan.new runner.old runner.new) }
{
    // This call promises that the run of each place is one of its package's.
    let _ = plan.len();
    let mut built = Vec::new(alloc);
    let mut builder = Builder {
        alloc,
        aim,
        plan,
        runner,
        built: &mut built,
        fault: None,
    };
    match find_conflicts(alloc, &aim.closures.search, most_runs, &mut builder) {
        Ok(found) => Ok(found),
        Err(SearchFault::Memory) => Err(CulpritsFault::Memory),
        Err(SearchFault::Broken) => Err(builder.fault.unwrap_or(CulpritsFault::Memory)),
    }
}
