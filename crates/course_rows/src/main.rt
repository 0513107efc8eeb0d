//! Drives `hack_lanes` over jobs in memory, and compares what happens with the rows on standard
//! input: a line `> WIDTH: JOB JOB ..`, and a line `| EVENT EVENT ..`. Prints each row that differs;
//! the status is 1 if one does.
//!
//! A job is the number of pauses that it takes. Behind it stands `x` where it can't be started, and
//! `!` where it fails: then the driver stops, and ends what was started, unless `keep` stands before
//! the width. `prepare` is a call without a turn. Places and lanes are counted from 0.
#![tactic(auto)]

mod course;
mod driver;
mod memory;
mod rows;

use crate::rows::check;
use std::io;
use std::process::ExitCode;

fn main(rt: HostRuntime) -> io::Result<ExitCode> {
    let text = io::read_to_string(rt.alloc(), rt.reader())?;
    let counts = check(&rt, rt.alloc(), text.as_str())?;
    println!(rt; "{} rows hold", counts.held)?;
    if counts.wrong == 0 {
        Ok(ExitCode::SUCCESS)
    } else {
        Ok(ExitCode::FAILURE)
    }
}
