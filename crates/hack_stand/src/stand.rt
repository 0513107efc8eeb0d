//! What a stand-in answers to its arguments. `-vV` as the last argument asks for the version,
//! `--version` alone for that of rustup, `metadata` for the records of the workspace and
//! `locate-project` for its root: each is a file of the folder. All else is recorded as a line of
//! the file `calls`, and fails where the file `fail` has that line.

ghost use Rattle.std.specs.Prelude.{◌≡◌, ◌++◌, IfOk, IfErr, OnOk, Some, map, string_bytes, codes};
ghost use Rattle.std.specs.Prelude.{option_copied};
ghost use Rattle.hack_files.specs.Files.{KeepsAll, KeepsOthers};
ghost use Rattle.hack_base.specs.Counters.{GrowsBy};
ghost use Rattle.hack_stand.specs.Words.{ends_with_word, has_line, has_word, is_lone_word};
ghost use Rattle.hack_stand.specs.Words.{arguments_line, printed_by};
ghost use Rattle.hack_stand.specs.Stands.{IsDeviceFault, IsStandFault, Notes};
ghost use Rattle.hack_stand.specs.Internal.{IsFailedRead};
ghost use Rattle.hack_stand.specs.Stands.{PrintsFile, Stands, file_in, held_or_none, noted_status};

use hack_files::fs;
use hack_files::fs::{FileFault, Files, FsFault};
use std::alloc::{AllocError, Global};

/// Which program is replaced.
#[derive(Clone, Copy)]
pub enum Tool {
    Cargo,
    Rustup,
}

/// What a stand-in prints, and its exit status.
#[derive(Drop)]
pub struct Stood {
    pub output: Vec<u8>,
    pub status: u8,
}

/// What a stand-in answers to its arguments from the files of a folder. The status is 101 where the
/// folder says that the call fails, and else 0.
pub fn stand<F: Files>(
    alloc: Global,
    tool: Tool,
    files: &mut F,
    dir: &str,
    words: &[String],
) -> Result<Stood, FsFault>
    ensures ok { IfOk result (λ stood. F.tells → Stands tool dir.now (map string_bytes words.now)
        (F.bytes_at files.old) (F.bytes_at files.new) stood.output.items stood.status) }
    ensures counted { OnOk result (GrowsBy 0 (F.failed files.old) (F.failed files.new)) }
    ensures err { IfErr result (IsStandFault dir.now F.tells (F.bytes_at files.old)
        (F.failed files.old) (F.failed files.new)) }
{
    match printed(tool, words) {
        Some(name) => print(alloc, files, dir, name),
        None => note(alloc, files, dir, words),
    }
}

/// The file that is printed for these arguments, if any.
fn printed(tool: Tool, words: &[String]) -> Option<&'static str>
    ensures { option_copied result ≡ printed_by tool (map string_bytes words.now) }
{
    if ends_with_word(words, "-vV") {
        return match tool {
            Tool::Cargo => Some("version"),
            Tool::Rustup => Some("stable"),
        };
    }
    if is_lone_word(words, "--version") {
        return Some("rustup");
    }
    if has_word(words, "metadata") {
        return Some("metadata.json");
    }
    if has_word(words, "locate-project") {
        return Some("locate.json");
    }
    None
}

fn ends_with_word(words: &[String], word: &str) -> bool
    ensures { result ≡ ends_with_word word.now (map string_bytes words.now) }
{
    match words {
        [.., last] => last.as_str() == word,
        [] => false,
    }
}

fn is_lone_word(words: &[String], word: &str) -> bool
    ensures { result ≡ is_lone_word word.now (map string_bytes words.now) }
{
    match words {
        [only] => only.as_str() == word,
        _ => false,
    }
}

fn has_word(words: &[String], word: &str) -> bool
    ensures { result ≡ has_word word.now (map string_bytes words.now) }
{
    for found in words {
        if found.as_str() == word {
            return true;
        }
    }
    false
}

fn path_of(alloc: Global, dir: &str, name: &str) -> Result<String, AllocError>
    ensures { IfOk result (λ path. string_bytes path ≡ file_in dir.now name.now) }
{
    format!(in alloc; "{dir}/{name}")
}

/// Prints a file of the folder.
fn print<F: Files>(alloc: Global, files: &mut F, dir: &str, name: &str) -> Result<Stood, FsFault>
    ensures ok { IfOk result (λ stood. F.tells → PrintsFile dir.now name.now (F.bytes_at files.old)
        (F.bytes_at files.new) stood.output.items stood.status) }
    ensures counted { OnOk result (GrowsBy 0 (F.failed files.old) (F.failed files.new)) }
    ensures err { IfErr result (IsStandFault dir.now F.tells (F.bytes_at files.old)
        (F.failed files.old) (F.failed files.new)) }
{
    let path = path_of(alloc, dir, name)?;
    let output = fs::read(alloc, files, path.as_str())?;
    Ok(Stood { output, status: 0 })
}

/// Records a call, which fails where the folder says so.
fn note<F: Files>(
    alloc: Global,
    files: &mut F,
    dir: &str,
    words: &[String],
) -> Result<Stood, FsFault>
    ensures ok { IfOk result (λ stood. F.tells →
        Notes dir.now (arguments_line (map string_bytes words.now)) (F.bytes_at files.old)
        (F.bytes_at files.new) stood.output.items stood.status) }
    ensures counted { OnOk result (GrowsBy 0 (F.failed files.old) (F.failed files.new)) }
    ensures err { IfErr result (IsStandFault dir.now F.tells (F.bytes_at files.old)
        (F.failed files.old) (F.failed files.new)) }
{
    let line = joined(alloc, words)?;
    let status = status_of(alloc, files, dir, line.as_str())?;
    append(alloc, files, dir, line.as_str())?;
    Ok(Stood {
        output: Vec::new(alloc),
        status,
    })
}

/// Arguments on one line.
fn joined(alloc: Global, words: &[String]) -> Result<String, AllocError>
    ensures { IfOk result (λ line. string_bytes line
        ≡ arguments_line (map string_bytes words.now)) }
{
    words.join(alloc, " ")
}

/// The status of a call that is recorded.
fn status_of<F: Files>(alloc: Global, files: &mut F, dir: &str, line: &str) -> Result<u8, FsFault>
    ensures ok { IfOk result (λ status. F.tells →
        status ≡ noted_status dir.now line.now (F.bytes_at files.old)) }
    ensures same { F.tells → KeepsAll (F.bytes_at files.old) (F.bytes_at files.new) }
    ensures counted { OnOk result (GrowsBy 0 (F.failed files.old) (F.failed files.new)) }
    ensures err { IfErr result (IsStandFault dir.now F.tells (F.bytes_at files.old)
        (F.failed files.old) (F.failed files.new)) }
{
    let path = path_of(alloc, dir, "fail")?;
    let bytes = read_if_there(alloc, files, path.as_str())?;
    match String::from_utf8(bytes) {
        Ok(text) => Ok(if has_line(text.as_str(), line) {
            101
        } else {
            0
        }),
        Err(_) => Err(FsFault::NotText(path)),
    }
}

/// Whether a text has this line.
fn has_line(text: &str, line: &str) -> bool
    ensures { result ≡ has_line line.now text.now }
{
    text.lines().any(|found| found == line)
}

/// Appends a line to the record of calls.
fn append<F: Files>(alloc: Global, files: &mut F, dir: &str, line: &str) -> Result<(), FsFault>
    ensures noted { OnOk result (F.tells → F.bytes_at files.new (file_in dir.now (codes "calls"))
        ≡ Some (held_or_none (F.bytes_at files.old (file_in dir.now (codes "calls")))
        ++ (line.now ++ codes "\n"))) }
    ensures others { F.tells → KeepsOthers (file_in dir.now (codes "calls"))
        (F.bytes_at files.old) (F.bytes_at files.new) }
    ensures counted { OnOk result (GrowsBy 0 (F.failed files.old) (F.failed files.new)) }
    ensures err { IfErr result (IsDeviceFault dir.now (F.failed files.old) (F.failed files.new)) }
{
    let path = path_of(alloc, dir, "calls")?;
    let mut notes = read_if_there(alloc, files, path.as_str())?;
    notes.extend_from_slice(line.as_bytes())?;
    notes.extend_from_slice(b"\n")?;
    fs::write(alloc, files, path.as_str(), &notes)
}

/// The contents of a file, empty where there is none.
fn read_if_there<F: Files>(alloc: Global, files: &mut F, path: &str) -> Result<Vec<u8>, FsFault>
    ensures ok { IfOk result (λ bytes. F.tells →
        bytes.items ≡ held_or_none (F.bytes_at files.old path.now)) }
    ensures same { F.tells → KeepsAll (F.bytes_at files.old) (F.bytes_at files.new) }
    ensures counted { OnOk result (GrowsBy 0 (F.failed files.old) (F.failed files.new)) }
    ensures err { IfErr result (IsFailedRead path.now (F.failed files.old) (F.failed files.new)) }
{
    match files.exists(path) {
        Ok(true) => fs::read(alloc, files, path),
        Ok(false) => Ok(Vec::new(alloc)),
        Err(FileFault::Memory) => Err(FsFault::Memory),
        Err(FileFault::Device) => Err(FsFault::Read(String::from_str(alloc, path)?)),
    }
}
