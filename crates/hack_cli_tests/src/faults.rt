//! The texts of errors that are constructed directly. `fault: NAME PART` names the error, and the
//! text in it if it has one; those of versions are reported for an answer of rustup.

use crate::asks::{halves, on};
use hack_holds::Wrong;
use hack_lexopt::LexFault;
use hack_rules::fault::CliFault;
use hack_rules::uses::CutFault;
use hack_versions::rustup::VersionTextFault;
use hack_versions::version::VersionFault;
use std::alloc::{AllocError, Global};

pub fn fault(alloc: Global, text: &str) -> Result<String, AllocError> {
    match text {
        "lex value" => LexFault::MissingValue.to_string(alloc),
        "lex attached" => LexFault::UnexpectedValue.to_string(alloc),
        "lex memory" => LexFault::Memory.to_string(alloc),
        "cut memory" => CutFault::Memory.to_string(alloc),
        "words memory" => CliFault::Memory.to_string(alloc),
        "words cut memory" => CliFault::Cut {
            fault: CutFault::Memory,
        }
        .to_string(alloc),
        _ => version_fault(alloc, text)?.of("`rustup`").to_string(alloc),
    }
}

fn version_fault(alloc: Global, text: &str) -> Result<VersionTextFault, AllocError> {
    let (name, part) = halves(text, " ");
    let part = String::from_str(alloc, part)?;
    match name {
        "answer" => Ok(VersionTextFault::Unexpected(part)),
        "minor" => Ok(VersionTextFault::Version(VersionFault::MissingMinor)),
        "number" => Ok(VersionTextFault::Version(VersionFault::BadNumber(part))),
        "open" => Ok(VersionTextFault::Version(VersionFault::OpenInclusive(part))),
        "version-memory" => Ok(VersionTextFault::Version(VersionFault::Memory)),
        "answer-memory" => Ok(VersionTextFault::Memory),
        _ => Err(AllocError),
    }
}

#[test]
fn texts_of_faults(rt: HostRuntime) -> Result<(), Wrong> {
    on(
        rt.alloc(),
        "
            > fault: lex value
            | missing argument
            > fault: lex attached
            | unexpected argument
            > fault: lex memory
            | out of memory
        ",
    )
}

#[test]
fn want_of_memory_has_a_text(rt: HostRuntime) -> Result<(), Wrong> {
    on(
        rt.alloc(),
        "
            > fault: words memory
            | out of memory
            > fault: words cut memory
            | out of memory
            > fault: cut memory
            | out of memory
        ",
    )
}

#[test]
fn faults_of_an_answer_name_its_command(rt: HostRuntime) -> Result<(), Wrong> {
    on(
        rt.alloc(),
        "
            > fault: answer cargo 2
            | unexpected output from `rustup`: cargo 2
            > fault: minor
            | missing minor version
            > fault: number x
            | invalid number `x`
            > fault: open 1.60
            | inclusive range `1.60..=` must have end expression; consider using `1.60..` or `1.60..=<end>`
            > fault: version-memory
            | out of memory
            > fault: answer-memory
            | out of memory
        ",
    )
}
