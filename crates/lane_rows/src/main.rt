//! Starts programs of the system in lanes, and prints what becomes of them. Each runs a script of
//! the shell, for which `$1` is a folder of this run alone. If it has an argument, it starts two
//! programs that write 10 MB to each of the standard streams.
#![tactic(auto)]

mod rows;
mod shells;

use crate::rows::{heavy, last_rows, rows, told_by_nproc};
use crate::shells::{Shells, text_in};
use hack_base::copies::copies;
use hack_children::children::Children;
use hack_children::processors::Processors;
use hack_process::process::{Caller, Child};
use std::{env, io, process};

fn main(rt: HostRuntime) -> io::Result<()> {
    let alloc = rt.alloc();
    let made = Child::new(&rt).call(alloc, "mktemp", &copies(alloc, &["-d"])?, true)?;
    let folder = text_in(alloc, &made)?;
    let files = folder.clone()?;
    let number = process::id(rt.process());
    let children = Children::new(alloc, &rt, rt.stdout(), rt.stderr(), files, number);
    let mut shells = Shells::new(children, folder);
    if env::args(&rt)?.count() > 1 {
        heavy(alloc, &mut shells)?;
    } else {
        rows(&rt, alloc, &mut shells, number)?;
        told_by_nproc(&rt, alloc, &mut shells)?;
        shells.starts.share(Processors::Known(12), true);
        last_rows(&rt, alloc, &mut shells)?;
    }
    shells.read(alloc, "rmdir \"$1\"")?;
    Ok(())
}
