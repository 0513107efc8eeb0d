//! The rule on a missing subcommand.

ghost use Rattle.std.specs.Prelude.{◌≡◌, None, IfOk, if◌then◌else◌};
ghost use Rattle.hack_base.specs.Names.{names_of};
ghost use Rattle.hack_rules.specs.declared.uses.behavior.WorkspaceBehavior.{WorkspaceBehavior};
ghost use Rattle.hack_rules.specs.PassedWords.{leading_of};
ghost use Rattle.hack_rules.specs.Uses.{views};
ghost use Rattle.hack_rules.specs.CliFaults.{Checks};
ghost use Rattle.hack_rules.specs.MissingSubcommand.{lists_commands as lists, missing_subcommand};

use crate::checks::has;
use crate::fault::CliFault;
use crate::uses::{Use, given, subcommand};
use hack_options::Opt;

/// Whether cargo's list is asked for, where there is no subcommand.
pub fn lists_commands(passed: &[String], uses: &[Use]) -> Result<bool, CliFault>
    ensures asked { (behavior : WorkspaceBehavior)
        → names_of passed.now ≡ leading_of behavior (views uses.now)
        → IfOk result (λ asked. asked ≡ lists behavior (views uses.now)) }
    ensures rule { (behavior : WorkspaceBehavior)
        → names_of passed.now ≡ leading_of behavior (views uses.now)
        → Checks result (if lists behavior (views uses.now) then None
        else missing_subcommand (views uses.now)) }
{
    if subcommand(uses).is_some() {
        return Ok(false);
    }
    if has(passed, "--list") {
        return Ok(true);
    }
    if given(Opt::RemoveDevDeps, uses) || given(Opt::Restore, uses) {
        return Ok(false);
    }
    Err(CliFault::NoSubcommand)
}
