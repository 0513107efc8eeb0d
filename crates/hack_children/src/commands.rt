//! The commands that children are, and the folders that they build into.

ghost use Rattle.std.specs.Prelude.{◌≡◌, IfOk, OnOk, codes, decimal, option_copied, option_map};
ghost use Rattle.hack_base.specs.Names.{names_of, optional_text};
ghost use Rattle.hack_children.specs.LaneCommands.{OrdersInLane, lane_target, color_choice};
ghost use Rattle.hack_children.specs.Internal.{Sets};

use hack_process::process::system_command;
use std::alloc::{AllocError, Global};
use std::process::Command;

/// The folder that commands in a lane build into, below the folder of the first lane; none for lane
/// 0, whose commands build where they would by themselves.
pub fn lane_folder(alloc: Global, folder: &str, lane: usize) -> Result<Option<String>, AllocError>
    ensures { IfOk result (λ target. optional_text target ≡ lane_target folder.now lane) }
{
    if lane == 0 {
        return Ok(None);
    }
    let target = format!(in alloc; "{folder}/cargo-hack-lane-{lane}")?;
    Ok(Some(target))
}

/// The command that `Children` starts: the program with just these arguments, in the folder and the
/// environment of this process, but for three variables of cargo.
#[tactic(auto, using(crate::proofs::LaneLemmas::in_lane))]
pub fn lane_command(
    alloc: Global,
    program: &str,
    words: &[String],
    target: Option<&str>,
    jobs: Option<usize>,
    colors: bool,
) -> Result<Command, AllocError>
    ensures { IfOk result (OrdersInLane program.now (names_of words.now)
        (option_copied target.entry) jobs colors) }
{
    let mut command = system_command(alloc, program, words)?;
    set(&mut command, "CARGO_TARGET_DIR", target)?;
    set_jobs(&mut command, alloc, jobs)?;
    set_colors(&mut command, colors)?;
    Ok(command)
}

/// Sets a variable, where there is a text for it.
fn set(command: &mut Command, name: &str, value: Option<&str>) -> Result<(), AllocError>
    ensures { OnOk result (Sets name.now (option_copied value.entry) command.old command.new) }
{
    if let Some(value) = value {
        command.env(name, value)?;
    }
    Ok(())
}

/// Sets the number of cargo's jobs, where there is one.
fn set_jobs(command: &mut Command, alloc: Global, jobs: Option<usize>) -> Result<(), AllocError>
    ensures { OnOk result (Sets (codes "CARGO_BUILD_JOBS") (option_map decimal jobs)
        command.old command.new) }
{
    let Some(jobs) = jobs else {
        return set(command, "CARGO_BUILD_JOBS", None);
    };
    let jobs = format!(in alloc; "{jobs}")?;
    set(command, "CARGO_BUILD_JOBS", Some(jobs.as_str()))
}

/// Makes cargo write colors, though it writes to a file.
fn set_colors(command: &mut Command, colors: bool) -> Result<(), AllocError>
    ensures { OnOk result (Sets (codes "CARGO_TERM_COLOR") (color_choice colors)
        command.old command.new) }
{
    let choice = if colors { Some("always") } else { None };
    set(command, "CARGO_TERM_COLOR", choice)
}
