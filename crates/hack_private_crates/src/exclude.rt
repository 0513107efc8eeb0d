//! Adding the folders of private crates to `workspace.exclude`, in an array that is there or in a
//! line of their own.

ghost use Rattle.std.specs.Prelude.{◌≡◌, ◌⊎◌, ◌==◌, ◌||◌, ◌-◌, ◌≤◌, ◌++◌, [], ◌∷◌, map, codes};
ghost use Rattle.std.specs.Prelude.{if◌then◌else◌, length, take, slice_index, true, IsTrue, IfOk};
ghost use Rattle.std.specs.Prelude.{IfSome, OnOk};
ghost use Rattle.std.specs.List.{flat_map};
ghost use Rattle.hack_base.specs.PathTexts.{parent_of};
ghost use Rattle.hack_base.specs.Names.{names_behind};
ghost use Rattle.hack_private_crates.specs.Exclude.{quoted_text, list_text, with_line};
ghost use Rattle.hack_private_crates.specs.Exclude.{IsAddedInside, EndsLast, reads_alike};
ghost use Rattle.hack_manifest.specs.LineRuns.{has_some};

use hack_base::paths::parent;
use hack_edits::arrays::{brackets, comma_behind, text_len};
use hack_edits::same::same_table;
use hack_edits::tables::tree_of;
use std::alloc::{AllocError, Global};

/// Returns a piece with the folders of paths added to its array, if the place for them is found.
pub fn added_inside(
    alloc: Global,
    piece: &str,
    paths: &[&str],
    filled: bool,
) -> Result<Option<Vec<u8>>, AllocError>
    ensures { IfOk result (λ o. IfSome o (λ v.
        IsAddedInside filled (map parent_of (names_behind paths.now)) piece.now v.items)) }
{
    let Some((n, m)) = brackets(alloc, piece)? else {
        return Ok(None);
    };
    let bytes = piece.as_bytes();
    let mut new = Vec::new(alloc);
    if !filled {
        new.extend_from_slice(&bytes[..n])?;
        push_listed(&mut new, paths)?;
        new.extend_from_slice(&bytes[n..])?;
        return Ok(Some(new));
    }
    let Some(k) = last_end(alloc, bytes, n, m - 1)? else {
        return Ok(None);
    };
    if k < n || m <= k {
        return Ok(None);
    }
    if !ends_last(alloc, piece, k, m)? {
        return Ok(None);
    }
    new.extend_from_slice(&bytes[..k])?;
    new.extend_from_slice(b", ")?;
    push_listed(&mut new, paths)?;
    new.extend_from_slice(&bytes[k..])?;
    Ok(Some(new))
}

/// Returns a header followed by a line that excludes the folders of paths.
pub fn with_exclude_line(alloc: Global, piece: &str, paths: &[&str]) -> Result<Vec<u8>, AllocError>
    ensures { IfOk result (λ v. v.items ≡ with_line
        (map parent_of (names_behind paths.now)) piece.now) }
{
    let mut new = Vec::new(alloc);
    new.extend_from_slice(piece.as_bytes())?;
    if !ends_feed(piece) {
        new.push(b'\n')?;
    }
    new.extend_from_slice(b"exclude = [")?;
    push_listed(&mut new, paths)?;
    new.extend_from_slice(b"]\n")?;
    Ok(new)
}

/// Whether a text ends in a line feed.
fn ends_feed(piece: &str) -> bool
    ensures { result ≡ (slice_index piece.now (length piece.now - 1) == 10) }
{
    piece.len() != 0 && piece.as_bytes()[piece.len() - 1] == b'\n'
}

/// Returns where the last text between the brackets ends; none where there is no text.
fn last_end(alloc: Global, bytes: &[u8], n: usize, m: usize) -> Result<Option<usize>, AllocError>
    requires ordered { n ≤ m }
    requires within { m ≤ length bytes.now }
{
    let mut from = n;
    let mut end = None;
    for _ in n..m {
        let to = element_end(alloc, &bytes[..m], from)?;
        if let Ok(element) = std::str::from_utf8(&bytes[from..to]) {
            let len = text_len(alloc, element)?;
            if len != 0 {
                end = Some(from + len);
            }
        }
        if to == m {
            return Ok(end);
        }
        from = to + 1;
    }
    Ok(end)
}

/// Returns whether the last value of the array that the first `m` bytes hold ends with the first
/// `k`: these end in a quote, and with a bracket after them `toml` reads the same array.
fn ends_last(alloc: Global, piece: &str, k: usize, m: usize) -> Result<bool, AllocError>
    ensures { IfOk result (λ b. b ≡ true → EndsLast piece.now m k) }
{
    let Some(front) = front_of(piece, k) else {
        return Ok(false);
    };
    let Some(whole) = front_of(piece, m) else {
        return Ok(false);
    };
    if !ends_quote(piece, k) {
        return Ok(false);
    }
    let mut closed = String::from_str(alloc, front)?;
    closed.push_str("]")?;
    reads_alike(alloc, closed.as_str(), whole)
}

/// The first n bytes, if there are some, and the last of them is ASCII.
fn front_of(piece: &str, n: usize) -> Option<&str>
    ensures { IfSome result (λ front. front.now ≡ take n piece.now) }
{
    if n == 0 || piece.len() < n || piece.as_bytes()[n - 1] >= 128 {
        return None;
    }
    Some(&piece[..n])
}

/// Whether the first n bytes end in a quote.
fn ends_quote(piece: &str, n: usize) -> bool
    ensures { IsTrue result
        → (slice_index piece.now (n - 1) ≡ 34) ⊎ (slice_index piece.now (n - 1) ≡ 39) }
{
    if n == 0 || piece.len() < n {
        return false;
    }
    let byte = piece.as_bytes()[n - 1];
    byte == b'"' || byte == b'\''
}

/// Whether two texts are read as the same tree.
fn reads_alike(alloc: Global, a: &str, b: &str) -> Result<bool, AllocError>
    ensures { IfOk result (λ same. same ≡ reads_alike a.now b.now) }
{
    let Some(first) = tree_of(alloc, a)? else {
        return Ok(false);
    };
    let Some(second) = tree_of(alloc, b)? else {
        return Ok(false);
    };
    Ok(same_table(&first, &second))
}

/// Where an element ends: before its comma, or at the end.
fn element_end(alloc: Global, inside: &[u8], from: usize) -> Result<usize, AllocError>
    requires { from ≤ length inside.now }
    ensures { IfOk result (λ to. (from ≤ to) × (to ≤ length inside.now)) }
{
    match comma_behind(alloc, inside, from)? {
        Some(comma) => Ok(comma),
        None => Ok(inside.len()),
    }
}

/// Appends the folders of paths in quotes, with `, ` between them.
fn push_listed(out: &mut Vec<u8>, paths: &[&str]) -> Result<(), AllocError>
    ensures { OnOk result (out.new.items
        ≡ out.old.items ++ list_text (map parent_of (names_behind paths.now))) }
{
    match paths {
        [first, rest @ ..] => {
            push_quoted(out, parent(first))?;
            push_behind(out, rest)
        }
        [] => Ok(()),
    }
}

/// Appends the folders of paths in quotes, each after `, `.
fn push_behind(out: &mut Vec<u8>, paths: &[&str]) -> Result<(), AllocError>
    ensures { OnOk result (out.new.items
        ≡ out.old.items ++ flat_map (λ t. codes ", " ++ quoted_text t)
        (map parent_of (names_behind paths.now))) }
{
    for path in paths {
        out.extend_from_slice(b", ")?;
        push_quoted(out, parent(path))?;
    }
    Ok(())
}

/// Appends a text in quotes.
fn push_quoted(out: &mut Vec<u8>, text: &str) -> Result<(), AllocError>
    ensures { OnOk result (out.new.items ≡ out.old.items ++ quoted_text text.now) }
{
    out.push(b'"')?;
    push_escaped(out, text.as_bytes())?;
    out.push(b'"')?;
    Ok(())
}

/// Appends a text, with `\` before `"` and `\`.
fn push_escaped(out: &mut Vec<u8>, text: &[u8]) -> Result<(), AllocError>
    ensures { OnOk result (out.new.items ≡ out.old.items
        ++ flat_map (λ c. if c == 34 || c == 92 then 92 ∷ c ∷ [] else c ∷ []) text.now) }
{
    for byte in text {
        if *byte == b'"' || *byte == b'\\' {
            out.push(b'\\')?;
        }
        out.push(*byte)?;
    }
    Ok(())
}

/// Whether there are paths.
pub fn has_paths(paths: &[&str]) -> bool
    ensures { result ≡ has_some (map parent_of (names_behind paths.now)) }
{
    match paths {
        [_, ..] => true,
        [] => false,
    }
}
