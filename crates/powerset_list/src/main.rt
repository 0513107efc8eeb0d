//! Prints the command list of the feature powerset of the feature map on standard input.
#![tactic(auto)]

use hack_powerset_list::call_powerset_list;
use std::process::ExitCode;
use std::{env, io};

fn main(rt: HostRuntime) -> ExitCode {
    let ending = call_powerset_list(
        rt.alloc(),
        env::args(&rt),
        &mut rt.reader(),
        &mut io::writer(&rt),
        &mut rt.stderr(),
    );
    ExitCode::from(ending.status)
}
