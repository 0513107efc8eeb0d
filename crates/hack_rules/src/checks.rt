//! The checks that rules are made of.

ghost use Rattle.std.specs.Prelude.{◌≡◌, ◌&&◌, not};
ghost use Rattle.hack_base.specs.Names.{names_of};
ghost use Rattle.hack_rules.specs.Uses.{views};
ghost use Rattle.hack_rules.specs.CliFaults.{Checks, Needs};
ghost use Rattle.hack_rules.specs.Rules.{clash as clash_rule, fault_if, is_among};

use crate::fault::{Beside, CliFault};
use crate::uses::{Use, given};
use hack_options::Opt;

/// Refuses an option that is given without any of those that it needs.
pub fn needs(there: bool, option: Opt, beside: Beside, others: bool) -> Result<(), CliFault>
    ensures { Checks result (fault_if (there && not others) (Needs option beside)) }
{
    if there && !others {
        return Err(CliFault::Needs { option, beside });
    }
    Ok(())
}

/// Refuses two options that are both given.
pub fn clash(option: Opt, other: Opt, uses: &[Use]) -> Result<(), CliFault>
    ensures { Checks result (clash_rule option other (views uses.now)) }
{
    if given(option, uses) && given(other, uses) {
        return Err(CliFault::Clash { option, other });
    }
    Ok(())
}

/// Whether the name is one of these.
#[tactic(auto, using(hack_base::proofs::Chains::mapped))]
pub fn has(names: &[String], name: &str) -> bool
    ensures { result ≡ is_among (names_of names.now) name.now }
{
    names.iter().any(|one| one.as_str() == name)
}
