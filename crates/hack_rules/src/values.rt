//! Values of options that are numbers.

ghost use Rattle.std.specs.Prelude.{◌≡◌, IfOk, Some};
ghost use Rattle.std.specs.Option.{is_none};
ghost use Rattle.hack_rules.specs.CliFaults.{Checks, Number};
ghost use Rattle.hack_rules.specs.Internal.{number_up_to};
ghost use Rattle.hack_rules.specs.LateRules.{unless_counted};
ghost use Rattle.hack_rules.specs.Rules.{fault_if};
ghost use Rattle.hack_base.specs.Numbers.{number_of};

use crate::fault::CliFault;
use hack_options::Opt;
use std::alloc::Global;

fn whole(text: &str) -> Option<usize>
    ensures { result ≡ number_of 64 text.now }
{
    text.parse::<usize>().ok()
}

fn short(text: &str) -> Option<u16>
    ensures { result ≡ number_of 16 text.now }
{
    text.parse::<u16>().ok()
}

fn up_to(most: Option<usize>, text: &str) -> Option<usize>
    ensures { result ≡ number_up_to most text.now }
{
    match (whole(text), most) {
        (Some(number), Some(most)) if number > most => None,
        (number, _) => number,
    }
}

/// A depth.
pub fn depth(alloc: Global, text: &str) -> Result<usize, CliFault>
    ensures value { IfOk result (λ n. number_of 64 text.now ≡ Some n) }
    ensures checks { Checks result
        (fault_if (is_none (number_of 64 text.now)) (Number text.now)) }
{
    match whole(text) {
        Some(depth) => Ok(depth),
        None => Err(CliFault::Number {
            found: String::from_str(alloc, text)?,
        }),
    }
}

/// A step between minor versions.
pub fn step(alloc: Global, text: &str) -> Result<u16, CliFault>
    ensures value { IfOk result (λ n. number_of 16 text.now ≡ Some n) }
    ensures checks { Checks result (unless_counted Opt.VersionStep (number_of 16) text.now) }
{
    match short(text) {
        Some(0) => Err(CliFault::Zero {
            option: Opt::VersionStep,
        }),
        Some(step) => Ok(step),
        None => Err(CliFault::Number {
            found: String::from_str(alloc, text)?,
        }),
    }
}

/// What an option counts: a number that isn't 0, and not greater than `most`, where that is given.
pub fn counted(
    alloc: Global,
    option: Opt,
    most: Option<usize>,
    text: &str,
) -> Result<usize, CliFault>
    ensures value { IfOk result (λ n. number_up_to most text.now ≡ Some n) }
    ensures checks { Checks result (unless_counted option (number_up_to most) text.now) }
{
    match up_to(most, text) {
        Some(0) => Err(CliFault::Zero { option }),
        Some(number) => Ok(number),
        None => Err(CliFault::Number {
            found: String::from_str(alloc, text)?,
        }),
    }
}
