//! The arguments that uses of options pass on to cargo.

ghost use Rattle.std.specs.Prelude.{◌≡◌, ◌++◌, IfOk, OnOk, map, string_bytes};
ghost use Rattle.hack_base.specs.Names.{optional_text};
ghost use Rattle.hack_rules.specs.Faults.{flag_seen};
ghost use Rattle.hack_rules.specs.PassedWords.{words_passed, is_passed_on, word_of, leading_of};
ghost use Rattle.hack_rules.specs.Uses.{view, views};

use crate::uses::fault::OwnedFlag;
use crate::uses::{Use, WorkspaceBehavior};
use hack_options::Opt;
use std::alloc::{AllocError, Global};

/// Whether an option of the table is also passed on to cargo.
fn is_passed(behavior: WorkspaceBehavior, option: Opt) -> bool
    ensures { result ≡ is_passed_on behavior option }
{
    match option {
        Opt::Locked | Opt::NoDefaultFeatures | Opt::AllFeatures | Opt::Color => true,
        Opt::ManifestPath | Opt::Package | Opt::Exclude | Opt::Workspace => {
            behavior == WorkspaceBehavior::Cargo
        }
        _ => false,
    }
}

/// An unknown option and the rest of its argument, in one argument.
fn joined_word(
    alloc: Global,
    flag: &OwnedFlag,
    value: &Option<String>,
) -> Result<String, AllocError>
    ensures { IfOk result (λ word. string_bytes word
        ≡ word_of (flag_seen flag.now) (optional_text value.now)) }
{
    match (flag, value) {
        (_, None) => format!(in alloc; "{flag}"),
        (OwnedFlag::Long(_), Some(value)) => format!(in alloc; "{flag}={value}"),
        (OwnedFlag::Short(_), Some(value)) => format!(in alloc; "{flag}{value}"),
    }
}

/// The arguments that one use passes on to cargo.
fn pass(
    alloc: Global,
    leading: &mut Vec<String>,
    behavior: WorkspaceBehavior,
    one: &Use,
) -> Result<(), AllocError>
    ensures { OnOk result (map string_bytes leading.new.items
        ≡ map string_bytes leading.old.items ++ words_passed behavior (view one.now)) }
{
    match one {
        Use::Word(word) => leading.push(word.clone()?)?,
        Use::Unknown { flag, value } => leading.push(joined_word(alloc, flag, value)?)?,
        Use::Known {
            option,
            flag,
            value,
        } => {
            if is_passed(behavior, *option) {
                leading.push(format!(in alloc; "{flag}")?)?;
                if let Some(value) = value {
                    leading.push(value.clone()?)?;
                }
            }
        }
    }
    Ok(())
}

/// The arguments that are passed on to cargo, without the counted `-v`.
pub fn leading(
    alloc: Global,
    behavior: WorkspaceBehavior,
    uses: &[Use],
) -> Result<Vec<String>, AllocError>
    ensures { IfOk result (λ words. map string_bytes words.items
        ≡ leading_of behavior (views uses.now)) }
{
    let mut leading = Vec::new(alloc);
    for one in uses {
        pass(alloc, &mut leading, behavior, one)?;
    }
    Ok(leading)
}
