//! What `read`, `read_to_string` and `write` return for any files: the bytes as a list, the quoted
//! text, `ok`, or the text of the error. `put a x\xff` writes bytes that are not UTF-8.

use crate::tests::files::short::Short;
use crate::tests::files::{hold_over, truth};
use crate::tests::text::quoted;
use hack_files::fs;
use hack_files::fs::{FailingFiles, Files, FsFault, MemoryFiles};
use hack_holds::Wrong;
use std::alloc::{AllocError, Global};

pub fn bytes<F: Files>(alloc: Global, files: &mut F, path: &str) -> Result<String, AllocError> {
    match fs::read(alloc, files, path) {
        Ok(bytes) => format!(in alloc; "{:?}", bytes.as_slice()),
        Err(fault) => text_of(alloc, &fault),
    }
}

pub fn text<F: Files>(alloc: Global, files: &mut F, path: &str) -> Result<String, AllocError> {
    match fs::read_to_string(alloc, files, path) {
        Ok(text) => quoted(alloc, text.as_bytes()),
        Err(fault) => text_of(alloc, &fault),
    }
}

pub fn put<F: Files>(
    alloc: Global,
    files: &mut F,
    path: &str,
    text: &str,
) -> Result<String, AllocError> {
    let bytes = match text {
        r"x\xff" => b"x\xff",
        _ => text.as_bytes(),
    };
    match fs::write(alloc, files, path, bytes) {
        Ok(()) => String::from_str(alloc, "ok"),
        Err(fault) => text_of(alloc, &fault),
    }
}

/// Whether the error of reading names this path.
pub fn names<F: Files>(alloc: Global, files: &mut F, path: &str) -> Result<String, AllocError> {
    let wanted = Err(FsFault::Read(String::from_str(alloc, path)?));
    truth(alloc, Ok(fs::read(alloc, files, path) == wanted))
}

pub fn text_of(alloc: Global, fault: &FsFault) -> Result<String, AllocError> {
    format!(in alloc; "{fault}")
}

#[test]
fn bytes_that_are_no_text_are_no_failure_of_the_device(rt: HostRuntime) -> Result<(), Wrong> {
    hold_over(
        rt.alloc(),
        MemoryFiles::new(rt.alloc()),
        r"
            > put a Käse
            | ok
            > bytes a
            | [75, 195, 164, 115, 101]
            > text a
            | 'Käse'
            > put a x\xff
            | ok
            > bytes a
            | [120, 255]
            > text a
            | file `a` is not UTF-8 text
            > failures
            | 0
        ",
    )
}

#[test]
fn want_of_memory_is_no_failure_of_the_device(rt: HostRuntime) -> Result<(), Wrong> {
    hold_over(
        rt.alloc(),
        Short { failures: 0 },
        "
            > bytes a
            | out of memory
            > text a
            | out of memory
            > put a 1
            | out of memory
            > failures
            | 3
        ",
    )
}

#[test]
fn a_failure_of_the_device_names_the_path(rt: HostRuntime) -> Result<(), Wrong> {
    hold_over(
        rt.alloc(),
        FailingFiles::new(MemoryFiles::new(rt.alloc()), 3),
        "
            > bytes a
            | failed to read from file `a`
            > text a
            | failed to read from file `a`
            > put a 1
            | failed to write to file `a`
            > bytes a
            | []
            > failures
            | 3
        ",
    )
}

#[test]
fn faults_are_compared_by_kind_and_path(rt: HostRuntime) -> Result<(), Wrong> {
    hold_over(
        rt.alloc(),
        MemoryFiles::new(rt.alloc()),
        "
            > fault a
            | true
        ",
    )
}
