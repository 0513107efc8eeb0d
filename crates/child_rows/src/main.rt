//! Runs programs of the system, and prints a line for each: its name, and `ok`, the text that was
//! read, the length of its outputs, or the error. Texts are quoted, with `\n` for a line feed. If
//! it has arguments itself, it reads from the command that they form, and prints the result.
#![tactic(auto)]

use hack_process::process::{Caller, Child, ProcessBuilder, ProcessFault};
use std::alloc::{AllocError, Global};
use std::{env, io};

/// What a command is run for.
#[derive(Clone, Copy)]
enum Ask {
    Run,
    Lengths,
    Read,
}

const MEGABYTES: &str = "yes x | head -c 1048576 & yes y | head -c 1048576 >&2; wait";

const ROWS: [(&str, &str, &[&str], Ask); 21] = [
    ("true", "true", &[], Ask::Run),
    ("false", "false", &[], Ask::Run),
    ("false captured", "false", &[], Ask::Read),
    ("status 255", "sh", &["-c", "exit 255"], Ask::Run),
    ("killed", "sh", &["-c", "kill -9 $$"], Ask::Run),
    (
        "killed captured",
        "sh",
        &["-c", "echo out; kill -15 $$"],
        Ask::Read,
    ),
    ("missing", "hack-no-such-program", &["a"], Ask::Run),
    ("missing captured", "/hack/no/such/program", &[], Ask::Read),
    ("no program", "", &["a"], Ask::Run),
    ("no program captured", "", &[], Ask::Read),
    ("a program that is a folder", "/", &[], Ask::Run),
    ("both streams", "sh", &["-c", MEGABYTES], Ask::Lengths),
    ("no text", "printf", &["a\\377"], Ask::Read),
    (
        "outputs of a failure",
        "sh",
        &["-c", "echo out; echo err >&2; exit 3"],
        Ask::Read,
    ),
    (
        "white space of a failure",
        "sh",
        &["-c", "printf ' \\n'; printf '\\377' >&2; exit 3"],
        Ask::Read,
    ),
    ("no input", "cat", &[], Ask::Read),
    (
        "a word with a line feed",
        "printf",
        &["%s", "a\nb c"],
        Ask::Read,
    ),
    (
        "a word for a shell",
        "printf",
        &["%s", "$HOME *; exit 1"],
        Ask::Read,
    ),
    (
        "the streams of this process",
        "echo",
        &["written by a program"],
        Ask::Run,
    ),
    ("line ends", "printf", &["\\n a\\r\\n \\r\\n\\n"], Ask::Read),
    (
        "the name that it is started by",
        "sh",
        &["-c", "printf %s \"$0\""],
        Ask::Read,
    ),
];

/// The text of an error, on one line.
fn shown(alloc: Global, fault: ProcessFault) -> Result<String, AllocError> {
    let text = format!(in alloc; "{fault}")?;
    format!(in alloc; "fault {text:?}")
}

/// The result of a command.
fn told<C: Caller>(
    alloc: Global,
    caller: &mut C,
    command: &ProcessBuilder<'_>,
    ask: Ask,
) -> Result<String, AllocError> {
    match ask {
        Ask::Run => match command.run(alloc, caller, "") {
            Ok(()) => String::from_str(alloc, "ok"),
            Err(fault) => shown(alloc, fault),
        },
        Ask::Lengths => match command.run_with_output(alloc, caller, "") {
            Ok(called) => {
                let (output, errors) = (called.stdout.len(), called.stderr.len());
                format!(in alloc; "{output} and {errors} bytes")
            }
            Err(fault) => shown(alloc, fault),
        },
        Ask::Read => match command.read(alloc, caller, "") {
            Ok(text) => format!(in alloc; "{text:?}"),
            Err(fault) => shown(alloc, fault),
        },
    }
}

/// A shell that counts its arguments, of which there are 10,000.
fn many_words(alloc: Global) -> Result<ProcessBuilder<'static>, AllocError> {
    let mut command = ProcessBuilder::new(alloc, "sh")?;
    command.args(&["-c", "echo $#", "sh"])?;
    for _ in 0..10_000 {
        command.arg("word")?;
    }
    Ok(command)
}

/// A line for each row, and one for the many arguments.
fn rows<R: Print, C: Caller>(rt: &R, alloc: Global, caller: &mut C) -> io::Result<()> {
    for (name, program, words, ask) in ROWS {
        let mut command = ProcessBuilder::new(alloc, program)?;
        command.args(words)?;
        let told = told(alloc, caller, &command, ask)?;
        println!(rt; "{name}: {told}")?;
    }
    let told = told(alloc, caller, &many_words(alloc)?, Ask::Read)?;
    println!(rt; "ten thousand words: {told}")
}

fn main(rt: HostRuntime) -> io::Result<()> {
    let alloc = rt.alloc();
    let mut child = Child::new(&rt);
    let all = env::args(&rt)?;
    let words: Vec<String> = all.skip(1).collect(alloc)?;
    match words.as_slice() {
        [program, rest @ ..] => {
            let mut command = ProcessBuilder::new(alloc, program.as_str())?;
            command.args(rest)?;
            let told = told(alloc, &mut child, &command, Ask::Read)?;
            println!(rt; "{told}")
        }
        [] => rows(&rt, alloc, &mut child),
    }
}
