//! What uses say about an option.

ghost use Rattle.std.specs.Prelude.{◌≡◌, IfOk, length, map, string_bytes};
ghost use Rattle.std.specs.List.{filter};
ghost use Rattle.hack_base.specs.Names.{optional_text_ref};
ghost use Rattle.hack_rules.specs.Values.{value_given, values_given};
ghost use Rattle.hack_rules.specs.Uses.{is_given, is_use_of, views, subcommand_of};

use crate::uses::Use;
use hack_options::Opt;
use std::alloc::{AllocError, Global};

/// Whether the option was used. An alias counts as the option that it means.
#[tactic(auto, using(hack_base::proofs::Chains::mapped))]
pub fn given(option: Opt, uses: &[Use]) -> bool
    ensures { result ≡ is_given option (views uses.now) }
{
    uses.iter().any(|one| one.is_of(option))
}

/// The first argument that no option takes; later ones are arguments of this subcommand.
pub fn subcommand(uses: &[Use]) -> Option<&String>
    ensures { optional_text_ref result ≡ subcommand_of (views uses.now) }
{
    for one in uses {
        if let Use::Word(word) = one {
            return Some(word);
        }
    }
    None
}

/// The value of the option's first use that has one, for an option that may be given once.
pub fn value(option: Opt, uses: &[Use]) -> Option<&String>
    ensures { optional_text_ref result
        ≡ value_given option (views uses.now) }
{
    for one in uses {
        if let Some(value) = one.value_of(option) {
            return Some(value);
        }
    }
    None
}

/// The values of all the option's uses, in order.
pub fn values(alloc: Global, option: Opt, uses: &[Use]) -> Result<Vec<String>, AllocError>
    ensures { IfOk result (λ values. map string_bytes values.items
        ≡ values_given option (views uses.now)) }
{
    let mut values = Vec::new(alloc);
    for one in uses {
        if let Some(value) = one.value_of(option) {
            values.push(value.clone()?)?;
        }
    }
    Ok(values)
}

/// How often the option was used.
pub fn count(option: Opt, uses: &[Use]) -> usize
    ensures { result ≡ length (filter (is_use_of option) (views uses.now)) }
{
    let mut count = 0;
    for one in uses {
        if one.is_of(option) {
            count += 1;
        }
    }
    count
}
