//! Files that take what a child writes. They are no pipes, since a child waits where a pipe is full
//! that nobody reads. They have no name, so nothing is left of them, however this process ends.

use std::fs::File;
use std::io::Write;
use std::os::unix::prelude::{FileExt, MetadataExt, OpenOptionsExt};
use std::rt::Files;
use std::{fs, io};

/// Makes a file for this user alone, and takes its name away. It fails where the path has anything.
pub fn nameless_file<R: Files<File = File>>(rt: &R, path: &str) -> io::Result<File> {
    let mut options = File::options();
    options.read(true).append(true).create_new(true).mode(0o600);
    let file = options.open(rt, path)?;
    fs::remove_file(rt, path)?;
    Ok(file)
}

/// Whether this process's standard output and its standard error go to one file, as a terminal or a log:
/// then what a child writes to both has to stay in order.
pub fn are_streams_one<R: Files>(rt: &R) -> bool {
    let out = fs::metadata(rt, "/proc/self/fd/1");
    match (out, fs::metadata(rt, "/proc/self/fd/2")) {
        (Ok(out), Ok(err)) => out.dev() == err.dev() && out.ino() == err.ino(),
        _ => false,
    }
}

/// Copies all of a file, whatever its position is: a child that has the file moved it.
pub fn copy_whole<W: Write>(file: &File, to: &mut W) -> io::Result<()> {
    let mut part = [0u8; 8192];
    let mut at = 0u64;
    for _ in 0..u64::MAX {
        let count = file.read_at(&mut part, at)?;
        if count == 0 {
            break;
        }
        to.write_all(&part[..count])?;
        at = at.wrapping_add(count as u64);
    }
    to.flush()
}
