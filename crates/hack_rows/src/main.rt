//! Checks the rows of the table on standard input, and reports each that fails; the status is 1 if
//! one does.
#![tactic(auto)]

use hack_tables::check;
use std::io;
use std::process::ExitCode;

fn main(rt: HostRuntime) -> io::Result<ExitCode> {
    let text = io::read_to_string(rt.alloc(), rt.reader())?;
    let mut out = io::writer(&rt);
    match check(rt.alloc(), text.as_str(), &mut out) {
        Ok(counts) if counts.wrong == 0 => {
            println!(rt; "{} rows hold", counts.rows)?;
            Ok(ExitCode::SUCCESS)
        }
        Ok(counts) => {
            println!(rt; "{} of {} rows are wrong", counts.wrong, counts.rows)?;
            Ok(ExitCode::FAILURE)
        }
        Err(fault) => {
            eprintln!(rt; "error: {fault}")?;
            Ok(ExitCode::FAILURE)
        }
    }
}
