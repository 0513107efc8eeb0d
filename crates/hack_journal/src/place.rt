//! Where a journal lies: a row of files, one for each edit.
//!
//! The first file has the journal's own path. Each later one has that path, a `~` and its number.
//! So an edit adds one file and rewrites none.

ghost use Rattle.std.specs.Prelude.{◌≡◌, ◌↔◌, ◌+◌, ◌++◌, IfNone, IfOk, IfSome, IsTrue, codes};
ghost use Rattle.std.specs.Prelude.{false, length, string_bytes};
ghost use Rattle.std.specs.List.{repeat};
ghost use Rattle.hack_base.specs.PathTexts.{is_rooted, without_front};
ghost use Rattle.hack_journal.specs.Internal.{NoneClimbs};
ghost use Rattle.hack_journal.specs.Keeping.{IsWayless};
ghost use Rattle.hack_journal.specs.Rows.{file_at, is_of_journal, leads_to};

use hack_base::paths::{join, normal, parent, under};
use std::alloc::{AllocError, Global};

/// Where a journal lies, and the folder that the paths in its text are relative to.
#[derive(Debug, Drop)]
pub struct JournalPlace {
    pub folder: String,
    pub journal: String,
}

/// The path of a file of a journal's row, of which the first has the number 0.
pub(crate) fn file_of(alloc: Global, journal: &str, number: u64) -> Result<String, AllocError>
    ensures { IfOk result (λ path. string_bytes path ≡ file_at journal.now number) }
{
    if number == 0 {
        return String::from_str(alloc, journal);
    }
    format!(in alloc; "{journal}~{number}")
}

/// Whether a path is set aside for a journal: it begins with the journal's path.
pub(crate) fn is_of_journal(journal: &str, path: &str) -> bool
    ensures { result ≡ is_of_journal journal.now path.now }
{
    path.starts_with(journal)
}

/// The path that leads from a folder to this one. `None` where none is found: from an absolute folder
/// none leads to a path that is relative or has detours, and to each other one some does; from a
/// relative folder none leads there that climbs until the path is inside.
pub(crate) fn relative(
    alloc: Global,
    folder: &str,
    path: &str,
) -> Result<Option<String>, AllocError>
    ensures relative { IfOk result (λ found. IfSome found (λ way.
        is_rooted (string_bytes way) ≡ false)) }
    ensures leads { IfOk result (λ found. IfSome found (λ way.
        leads_to folder.now (string_bytes way) ≡ path.now)) }
    ensures none { IfOk result (λ found. IfNone found (IsWayless folder.now path.now)) }
{
    if let Some(near) = near_way(alloc, folder, path)? {
        return Ok(Some(near));
    }
    let far = far_way(alloc, folder, path)?;
    if leads(alloc, folder, far.as_str(), path)? {
        return Ok(Some(far));
    }
    Ok(None)
}

/// Whether a path is relative, and leads from a folder to this one.
fn leads(alloc: Global, folder: &str, way: &str, path: &str) -> Result<bool, AllocError>
    ensures { IfOk result (λ leads. IsTrue leads
        ↔ ((is_rooted way.now ≡ false) × (leads_to folder.now way.now ≡ path.now))) }
{
    if way.starts_with('/') {
        return Ok(false);
    }
    let end = absolute(alloc, folder, way)?;
    Ok(end.as_str() == path)
}

/// Where a path leads from a folder.
pub(crate) fn absolute(alloc: Global, folder: &str, way: &str) -> Result<String, AllocError>
    ensures { IfOk result (λ path. string_bytes path ≡ leads_to folder.now way.now) }
{
    let joined = join(alloc, folder, way)?;
    normal(alloc, joined.as_str())
}

/// A path without the slash that it begins with.
fn unrooted(path: &str) -> &str
    ensures { result.now ≡ without_front (codes "/") path.now }
{
    path.strip_prefix('/').unwrap_or(path)
}

/// The way from a folder to a path: up until the path is inside, and then down.
fn near_way(alloc: Global, folder: &str, path: &str) -> Result<Option<String>, AllocError>
    ensures relative { IfOk result (λ found. IfSome found (λ way.
        is_rooted (string_bytes way) ≡ false)) }
    ensures leads { IfOk result (λ found. IfSome found (λ way.
        leads_to folder.now (string_bytes way) ≡ path.now)) }
    ensures none { IfOk result (λ found. IfNone found (NoneClimbs folder.now path.now
        (length folder.now + 1))) }
{
    let folders = normal(alloc, folder)?;
    let mut above = folders.as_str();
    let mut ups = String::new(alloc);
    for steps in 0..folder.len() + 1 {
        let rest = unrooted(under(path, above));
        let way = format!(in alloc; "{ups}{rest}")?;
        if leads(alloc, folder, way.as_str(), path)? {
            return Ok(Some(way));
        }
        ups.push_str("../")?;
        above = parent(above);
    }
    Ok(None)
}

/// The way from an absolute folder up to the root, and then down: it climbs more often than there
/// are folders, which at the root has no effect.
fn far_way(alloc: Global, folder: &str, path: &str) -> Result<String, AllocError>
    ensures { IfOk result (λ way.
        string_bytes way ≡ repeat (length folder.now + 1) (codes "../") ++ path.now) }
{
    let mut way = "../".repeat(alloc, folder.len() + 1)?;
    way.push_str(path)?;
    Ok(way)
}
