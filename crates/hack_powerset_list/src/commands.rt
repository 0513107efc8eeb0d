//! The commands of runs.

ghost use Rattle.std.specs.Prelude.{◌≡◌, [], ◌∷◌, codes, map, string_bytes, IfOk};
ghost use Rattle.hack_base.specs.Names.{names_behind};
ghost use Rattle.hack_features.specs.Feature.{name_of};
ghost use Rattle.hack_sets.specs.Sets.{items_at};
ghost use Rattle.hack_process.specs.CommandTexts.{listed_of};
ghost use Rattle.hack_process.specs.Commands.{command_of};
ghost use Rattle.hack_plan.specs.Runs.{run_of};
ghost use Rattle.hack_powerset_list.specs.Lines.{run_text, listed_run_command};

use hack_features::Feature;
use hack_plan::runs::Run;
use hack_process::process::ProcessBuilder;
use std::alloc::{AllocError, Global};

/// Returns the command of a run of a package with these features. `passed` are the arguments that
/// the user gave for cargo. If they are just `check`, the command's text is what the line of the
/// run has.
pub fn command<'a>(
    alloc: Global,
    passed: &'a [String],
    features: &[Feature],
    run: Run,
    positions: &[usize],
) -> Result<ProcessBuilder<'a>, AllocError>
    ensures command { IfOk result (λ builder. command_of builder ≡ listed_run_command
        (map string_bytes passed.now) (map name_of features.now) (run_of run positions.now)) }
    ensures line { map string_bytes passed.now ≡ codes "check" ∷ []
        → IfOk result (λ builder. listed_of [] (command_of builder)
        ≡ run_text (map name_of features.now) (run_of run positions.now)) }
{
    let mut command = ProcessBuilder::new(alloc, "cargo")?;
    command.pass_words(passed, &[]);
    match run {
        Run::Plain => {}
        Run::AllFeatures => command.arg("--all-features")?,
        Run::NoDefaultFeatures => command.arg("--no-default-features")?,
        Run::Features => {
            command.arg("--no-default-features")?;
            let names = names_at(alloc, features, positions)?;
            command.append_features(names.as_slice())?;
        }
    }
    Ok(command)
}

/// The names of the features at the positions.
fn names_at<'a>(
    alloc: Global,
    features: &'a [Feature],
    positions: &[usize],
) -> Result<Vec<&'a str>, AllocError>
    ensures { IfOk result (λ names. names_behind names.items
        ≡ items_at (map name_of features.now) positions.now) }
{
    let mut names = Vec::new(alloc);
    for p in positions {
        let Some(feature) = features.get(*p) else {
            continue;
        };
        names.push(feature.name())?;
    }
    Ok(names)
}
