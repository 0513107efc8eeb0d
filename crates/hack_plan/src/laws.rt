//! Laws: functions that do nothing, each of which has laws over definitions as its contract.

ghost use Rattle.std.specs.Prelude.{◌≡◌, ℕ, Option, Some, slice_get};
ghost use Rattle.hack_plan.specs.declared.places.PlanEntry.{PlanEntry};
ghost use Rattle.hack_plan.specs.Runs.{PackageRun};
ghost use Rattle.hack_plan.specs.View.{PlanView};
ghost use Rattle.hack_plan.specs.Plans.{IsRunOf};
ghost use Rattle.hack_plan.specs.Commands.{chosen_package_at, clean_command, command_of_entry};
ghost use Rattle.hack_plan.specs.Commands.{name_in};
ghost use Rattle.hack_plan.specs.Growth.{IsGrown, with_run};

/// A plan is its own growth, growth after growth is growth, and so is one run more.
pub fn plans_grow()
    ensures same { (plan : PlanView) → IsGrown plan plan }
    ensures more { (a b c : PlanView) → IsGrown a b → IsGrown b c → IsGrown a c }
    ensures one { (slot place : ℕ) (run : PackageRun) (plan : PlanView)
        → IsGrown plan (with_run slot place run plan) }
{}

/// What was planned before a plan grew stays: the entries of places and the commands of their runs,
/// and for each package its name and the command that cleans it.
pub fn grown_plans_keep()
    ensures entry { (old new : PlanView) → IsGrown old new → (place : ℕ) (q : PlanEntry)
        → slice_get old.entries place ≡ Some q → slice_get new.entries place ≡ Some q }
    ensures command { (old new : PlanView) → IsGrown old new → (q : PlanEntry)
        → IsRunOf old.packages q.package q.rank
        → command_of_entry new q ≡ command_of_entry old q }
    ensures name { (old new : PlanView) → IsGrown old new → (p : Option ℕ)
        → name_in (chosen_package_at new.packages p) ≡ name_in (chosen_package_at old.packages p) }
    ensures cleaning { (old new : PlanView) → IsGrown old new → (p : Option ℕ)
        → clean_command new.call (chosen_package_at new.packages p)
        ≡ clean_command old.call (chosen_package_at old.packages p) }
{}
