//! What a write that was cut may have left at a path: the first of its bytes, before the rest of
//! those that were there.

ghost use Rattle.std.specs.Prelude.{◌≡◌, ◌↔◌, IsTrue, drop, nat_eq};
ghost use Rattle.std.specs.List.{common_prefix_len};
ghost use Rattle.std.specs.Option.{option_map};
ghost use Rattle.hack_journal.specs.Journal.{edit_of, edits_of};
ghost use Rattle.hack_journal.specs.Recovery.{IsOwn};
ghost use Rattle.hack_journal.specs.Internal.{EntryHas, IsCutOf, IsOver, SomeEntryHas};

use crate::entries::tells;
use crate::journal::Entry;

/// How many bytes two texts share at their front.
fn common(a: &[u8], b: &[u8]) -> usize
    ensures { result ≡ common_prefix_len nat_eq a.now b.now }
{
    let mut count = 0;
    while count < a.len() && count < b.len() && a[count] == b[count] {
        count += 1;
    }
    count
}

/// The bytes behind these many.
fn behind(bytes: &[u8], count: usize) -> &[u8]
    ensures { result.now ≡ drop count bytes.now }
{
    bytes.get(count..).unwrap_or(&[])
}

/// Whether a write of new bytes over old ones that was cut may have left these. What they share with
/// the new ones counts as written, and the old ones have to follow.
fn is_cut(new: Option<&[u8]>, old: Option<&[u8]>, now: &[u8]) -> bool
    ensures { IsTrue result ↔ IsCutOf (option_map (λ bytes. bytes.now) new.entry)
        (option_map (λ bytes. bytes.now) old.entry) now.now }
{
    let (Some(new), Some(old)) = (new, old) else {
        return false;
    };
    let count = common(new, now);
    behind(now, count) == behind(old, count)
}

/// Whether it was a write over bytes that this entry of the path has.
fn is_over_one(entry: &Entry, path: &str, new: Option<&[u8]>, now: &[u8]) -> bool
    ensures { IsTrue result ↔ EntryHas
        (λ old. IsCutOf (option_map (λ bytes. bytes.now) new.entry) old now.now)
        (edit_of entry.now) path.now }
{
    entry.path.as_str() == path
        && (is_cut(new, entry.held.as_deref(), now) || is_cut(new, entry.wrote.as_deref(), now))
}

/// The same of one of these entries.
#[tactic(auto, unfolding(crate::specs::Internal::IsOver))]
fn is_over(entries: &[Entry], path: &str, new: Option<&[u8]>, now: &[u8]) -> bool
    ensures { IsTrue result ↔ IsOver (edits_of entries.now) path.now now.now
        (option_map (λ bytes. bytes.now) new.entry) }
{
    match entries {
        [] => false,
        [entry, rest @ ..] => is_over_one(entry, path, new, now) || is_over(rest, path, new, now),
    }
}

/// Whether it was a write of bytes that this entry of the path has.
fn is_of_one(all: &[Entry], entry: &Entry, path: &str, now: &[u8]) -> bool
    ensures { IsTrue result ↔ EntryHas (IsOver (edits_of all.now) path.now now.now)
        (edit_of entry.now) path.now }
{
    entry.path.as_str() == path
        && (is_over(all, path, entry.held.as_deref(), now)
            || is_over(all, path, entry.wrote.as_deref(), now))
}

/// The same of one of these entries.
fn is_of(all: &[Entry], entries: &[Entry], path: &str, now: &[u8]) -> bool
    ensures { IsTrue result ↔ SomeEntryHas (IsOver (edits_of all.now) path.now now.now)
        (edits_of entries.now) path.now }
{
    match entries {
        [] => false,
        [entry, rest @ ..] => is_of_one(all, entry, path, now) || is_of(all, rest, path, now),
    }
}

/// Returns whether a call itself left these bytes at the path: an entry of it has them, or a write
/// between two texts that its entries have was cut.
#[tactic(auto, unfolding(crate::specs::Recovery::IsOwn))]
pub fn is_own(entries: &[Entry], path: &str, bytes: Option<&[u8]>) -> bool
    ensures { IsTrue result ↔ IsOwn (edits_of entries.now) path.now
        (option_map (λ bytes. bytes.now) bytes.entry) }
{
    if tells(entries, path, bytes) {
        return true;
    }
    match bytes {
        Some(now) => is_of(entries, entries, path, now),
        None => false,
    }
}
