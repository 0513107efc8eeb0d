//! A whole call of a stand-in: its arguments, the folder that it answers from, its streams and its
//! exit status.

ghost use Rattle.std.specs.Prelude.{◌≡◌, ◌≢◌, IfOk, drop};
ghost use Rattle.std.specs.Vec.Iter.{into_iter_items};
ghost use Rattle.hack_stand.specs.Calls.{AnswersArguments};

use crate::stand::{Tool, stand};
use hack_files::fs::{Disk, Files, FsFault};
use std::alloc::{AllocError, Global};
use std::env::{Args, VarError};
use std::io::Write;
use std::process::ExitCode;
use std::{env, io};
use thiserror::Error;

/// Why a stand-in can't answer.
#[derive(Debug, Drop, Error)]
enum CallFault {
    #[error("STAND_DIR is not set")]
    NoFolder,
    #[error("the words must be UTF-8")]
    Words,
    #[error("failed to write the answer")]
    Output,
    #[error("{0}")]
    Files(FsFault),
    #[error("out of memory")]
    Memory,
}

impl From<AllocError> for CallFault {
    fn from(_e: AllocError) -> CallFault {
        CallFault::Memory
    }
}

/// How a stand-in is started.
#[derive(Drop)]
pub struct Start {
    /// The program that it replaces.
    pub tool: Tool,
    /// What `env::var` returned for the variable `STAND_DIR`.
    pub dir: Result<String, VarError>,
    /// What `env::args` returned.
    pub arguments: io::Result<Args>,
}

/// What a stand-in does, and its exit status: that of `stand` for the arguments after the first
/// one, or 2 where it can't answer, which is reported on `err`.
pub fn call<F: Files, O: Write, E: Write>(
    alloc: Global,
    start: Start,
    files: &mut F,
    out: &mut O,
    err: &mut E,
) -> u8
    ensures { result ≢ 2 → AnswersArguments start.tool F.tells start.dir start.arguments
        (F.bytes_at files.old) (F.bytes_at files.new) (O.contents out.old) (O.contents out.new)
        result }
{
    match answer(alloc, start, files, out) {
        Ok(status) => status,
        Err(fault) => {
            let _ = writeln!(err, "error: {fault}");
            2
        }
    }
}

/// Does what the stand-in for a tool does, with the arguments, the variable `STAND_DIR`, the files
/// and the streams of this process. See `call`; no contract can say what a process is given, or
/// what becomes of its output.
pub fn call_here(rt: &HostRuntime, tool: Tool) -> ExitCode {
    let status = call(
        rt.alloc(),
        Start {
            tool,
            dir: env::var(rt, "STAND_DIR"),
            arguments: env::args(rt),
        },
        &mut Disk::new(rt),
        &mut io::writer(rt),
        &mut rt.stderr(),
    );
    ExitCode::from(status)
}

/// The status of a call that could be answered.
fn answer<F: Files, O: Write>(
    alloc: Global,
    start: Start,
    files: &mut F,
    out: &mut O,
) -> Result<u8, CallFault>
    ensures { IfOk result (AnswersArguments start.tool F.tells start.dir start.arguments
        (F.bytes_at files.old) (F.bytes_at files.new) (O.contents out.old)
        (O.contents out.new)) }
{
    let Start {
        tool,
        dir,
        arguments,
    } = start;
    let Ok(dir) = dir else {
        return Err(CallFault::NoFolder);
    };
    let Ok(arguments) = arguments else {
        return Err(CallFault::Words);
    };
    if dir.as_str().is_empty() {
        return Err(CallFault::NoFolder);
    }
    let words = words_of(alloc, arguments)?;
    match stand(alloc, tool, files, dir.as_str(), &words) {
        Ok(stood) => match out.write_all(&stood.output) {
            Ok(()) => Ok(stood.status),
            Err(_) => Err(CallFault::Output),
        },
        Err(fault) => Err(CallFault::Files(fault)),
    }
}

/// The arguments after the program's name.
fn words_of(alloc: Global, arguments: Args) -> Result<Vec<String>, AllocError>
    ensures { IfOk result (λ words. words.items ≡ drop 1 (into_iter_items arguments)) }
{
    arguments.skip(1).collect(alloc)
}
