//! Replaces cargo in tests: it answers from the files of the folder `STAND_DIR`.
#![tactic(auto)]

use hack_stand::call::call_here;
use hack_stand::stand::Tool;
use std::process::ExitCode;

fn main(rt: HostRuntime) -> ExitCode {
    call_here(&rt, Tool::Cargo)
}
