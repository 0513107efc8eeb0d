//! Laws: functions that do nothing, each of which has a law over definitions as its contract.

ghost use Rattle.std.specs.Prelude.{◌≡◌, All, Bool, List, Option, length, map, true};
ghost use Rattle.hack_session.specs.Handouts.{HandsOut, IsDriven};
ghost use Rattle.hack_session.specs.Histories.{Course, HasPassed, passed_step};
ghost use Rattle.hack_session.specs.GrownSteps.{AreRuns};
ghost use Rattle.hack_session.specs.StepEffects.{DoesAll, State};
ghost use Rattle.hack_session.specs.StepOutput.{Manner};
ghost use Rattle.hack_session.specs.declared.step.Handed.{Handed};
ghost use Rattle.hack_plan.specs.Growth.{IsGrown};
ghost use Rattle.hack_plan.specs.Plans.{AreRunsOfPackages};
ghost use Rattle.hack_plan.specs.View.{PlanView};
ghost use Rattle.hack_partition.specs.declared.partition.Partition.{Partition};

use hack_process::process::Caller;

/// A session that was driven to its end handed out the runs of the chosen piece, in order, each
/// once, up to one that stopped it; where each step passed, it handed out the whole schedule.
pub fn driven_hands_out()
    ensures runs { (piece : Option Partition) (keep_going : Bool) (t : Course)
        → IsDriven piece keep_going t → HandsOut piece (length t.plan.entries) t }
    ensures whole { (piece : Option Partition) (keep_going : Bool) (t : Course)
        → IsDriven piece keep_going t → All HasPassed t.handed
        → t.handed ≡ map passed_step t.schedule }
{}

/// Runs that were handed out on a plan before it grew did on the grown plan what they did then.
pub fn grown_plans_tell<C: Caller>()
    ensures { (keep_going : Bool) (m : Manner) (old new : PlanView) (steps : List Handed)
        (a b : State) → IsGrown old new → old.call.grows ≡ true
        → AreRunsOfPackages old.packages old.entries → AreRuns steps
        → DoesAll C.tells keep_going m old steps a b
        → DoesAll C.tells keep_going m new steps a b }
{}
