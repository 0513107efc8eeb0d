//! Paths as texts. The disk is never asked: parts lie between slashes, and a path is nothing but
//! its bytes.

ghost use Rattle.std.specs.Prelude.{◌≡◌, IfOk, OnOk, is_some, unwrap_or, string_bytes};
ghost use Rattle.std.specs.List.{slice_split};
ghost use Rattle.hack_base.specs.PathTexts.{join_of, parent_of, stem_of, under_of, last_part};
ghost use Rattle.hack_base.specs.PathTexts.{without_ending, normal_of, kept_of, with_part};
ghost use Rattle.hack_base.specs.PathTexts.{one_up, is_slash};
ghost use Rattle.hack_base.specs.Names.{names_behind};

use std::alloc::{AllocError, Global};

/// The name that a program is called by: the last part of its path, without its ending. A path
/// whose last part names nothing, such as `..` or `/`, is its own name.
pub fn stem(p: &str) -> &str
    ensures { result.now ≡ stem_of p.now }
{
    let part = last(p);
    if part.is_empty() || part == "." || part == ".." {
        return p;
    }
    before_ending(part)
}

/// The text after the last slash.
fn last(p: &str) -> &str
    ensures { result.now ≡ last_part p.now }
{
    match p.rsplit_once('/') {
        Some((_, part)) => part,
        None => p,
    }
}

/// A part without its ending. A dot that comes first marks a hidden name and doesn't begin an
/// ending.
fn before_ending(part: &str) -> &str
    ensures { result.now ≡ without_ending part.now }
{
    match part.rsplit_once('.') {
        Some((front, _)) if !front.is_empty() => front,
        _ => part,
    }
}

/// A path relative to a folder: without the folder and the slash after it, where it begins with
/// these.
pub fn under<'a>(p: &'a str, dir: &str) -> &'a str
    ensures { result.now ≡ under_of p.now dir.now }
{
    if dir.is_empty() {
        return p;
    }
    match p.strip_prefix(dir) {
        Some(rest) => rest.strip_prefix('/').unwrap_or(p),
        None => p,
    }
}

/// Where a path leads from inside a folder. A path that begins with a slash leads to the same place
/// from anywhere.
pub fn join(alloc: Global, dir: &str, p: &str) -> Result<String, AllocError>
    ensures { IfOk result (λ joined. string_bytes joined ≡ join_of dir.now p.now) }
{
    if p.starts_with('/') {
        return String::from_str(alloc, p);
    }
    if dir.is_empty() || dir.ends_with('/') {
        return format!(in alloc; "{dir}{p}");
    }
    format!(in alloc; "{dir}/{p}")
}

/// The folder that contains the path: the text before its last slash.
pub fn parent(p: &str) -> &str
    ensures { result.now ≡ parent_of p.now }
{
    match p.rsplit_once('/') {
        Some((front, _)) if !front.is_empty() => front,
        Some(_) => "/",
        None => "",
    }
}

/// A path without detours: empty and `.` parts are dropped, and `..` removes the part before it. At
/// the root `..` is dropped, and at the start of a relative path it stays. Symbolic links are not
/// followed.
pub fn normal(alloc: Global, p: &str) -> Result<String, AllocError>
    ensures { IfOk result (λ path. string_bytes path ≡ normal_of p.now) }
{
    let rooted = p.starts_with('/');
    let kept = kept_parts(alloc, p, rooted)?;
    let path = kept.join(alloc, "/")?;
    if rooted {
        return format!(in alloc; "/{path}");
    }
    Ok(path)
}

/// The parts of a path that are kept, in order.
fn kept_parts<'a>(alloc: Global, p: &'a str, rooted: bool) -> Result<Vec<&'a str>, AllocError>
    ensures { IfOk result (λ kept. names_behind kept.items ≡ kept_of rooted
        (slice_split is_slash p.now)) }
{
    let mut kept = Vec::new(alloc);
    for part in p.split('/') {
        keep(&mut kept, part, rooted)?;
    }
    Ok(kept)
}

/// Adds a part to those that are kept. An empty part or `.` is dropped, and a `..` removes the last
/// part where that is possible.
fn keep<'a>(kept: &mut Vec<&'a str>, part: &'a str, rooted: bool) -> Result<(), AllocError>
    ensures { OnOk result (names_behind kept.new.items
        ≡ with_part rooted (names_behind kept.old.items) part.now) }
{
    if part.is_empty() || part == "." {
        return Ok(());
    }
    if part == ".." && climb(kept, rooted) {
        return Ok(());
    }
    kept.push(part)?;
    Ok(())
}

/// Removes the last part, and returns whether that was possible: it isn't where a `..` has to stay.
fn climb(kept: &mut Vec<&str>, rooted: bool) -> bool
    ensures tells { result ≡ is_some (one_up rooted (names_behind kept.old.items)) }
    ensures kept { names_behind kept.new.items
        ≡ unwrap_or (one_up rooted (names_behind kept.old.items)) (names_behind kept.old.items) }
{
    match kept.last() {
        None => rooted,
        Some(last) if *last == ".." => false,
        Some(_) => {
            kept.pop();
            true
        }
    }
}
