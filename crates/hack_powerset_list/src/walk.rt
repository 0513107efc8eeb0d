//! A walk over the listed sets, one after the other, that doesn't keep them in memory.

ghost use Rattle.std.specs.Prelude.{◌≡◌, ◌<◌, ◌≤◌, ◌∷◌, [], ℕ, List, All, map, IfOk, OnOk, false};
ghost use Rattle.std.specs.Prelude.{◌++◌, filter, length, OnErr, IsTrue, MatchOption, string_bytes};
ghost use Rattle.hack_features.specs.Feature.{name_of};
ghost use Rattle.hack_sets.specs.Sets.{IsSelection, items_at};
ghost use Rattle.hack_features.specs.View.{may_of, size_of, whole_of};
ghost use Rattle.hack_base.specs.Writes.{AppendsFront};
ghost use Rattle.hack_plan.specs.Runs.{Set};
ghost use Rattle.hack_powerset_list.specs.Lines.{run_line};
ghost use Rattle.hack_powerset_list.specs.LineWords.{PrintsText, others_text};
ghost use Rattle.hack_powerset_list.specs.LinesView.{AreTexts};
ghost use Rattle.hack_powerset_list.specs.Room.{set_in, most_in};
ghost use Rattle.hack_sets.specs.Walk.{below};
ghost use Rattle.hack_powerset_list.specs.Walks.{EndsIn, is_other, listed_below, set_lines};
ghost use Rattle.hack_powerset_list.specs.Streams.{CountsUnlessMemory};

use crate::lines::{Texts, print_line};
use crate::room::SetRoom;
use hack_base::writes::Sink;
use hack_features::{Feature, Questions, Rules};
use std::alloc::{AllocError, Global};
use std::io;

/// Whether a set of this many positions is full: the depth allows no further position in front of
/// it.
fn is_full(rules: &Rules, positions: usize) -> bool
    ensures { IsTrue result → (s : List ℕ) → length s ≡ positions
        → (p : ℕ) → may_of rules.now (p ∷ s) ≡ false }
{
    match rules.most() {
        None => false,
        Some(most) => positions >= most,
    }
}

/// Returns the last listed set that consists of the set in the room and one or more positions below
/// `limit`.
pub fn last_below(
    alloc: Global,
    rules: &mut Rules<'_>,
    room: &mut SetRoom,
    limit: usize,
) -> Result<Option<Vec<usize>>, AllocError>
    requires room { most_in room.old ≡ size_of rules.old }
    requires set { IsSelection (size_of rules.old) (set_in room.old) }
    requires above { All (λ p. limit ≤ p) (set_in room.old) }
    requires limit { limit ≤ size_of rules.old }
    ensures last { IfOk result (λ last.
        MatchOption last (listed_below rules.old limit (set_in room.old) ≡ [])
        (λ set. EndsIn (listed_below rules.old limit (set_in room.old)) set.items)) }
    ensures kept { OnOk result (set_in room.new ≡ set_in room.old) }
    ensures room { most_in room.new ≡ most_in room.old }
    ensures same_size { size_of rules.new ≡ size_of rules.old }
    ensures same_may { may_of rules.new ≡ may_of rules.old }
    ensures same_whole { whole_of rules.new ≡ whole_of rules.old }
{
    if is_full(rules, room.set().len()) {
        return Ok(None);
    }
    let mut p = limit;
    while p > 0 {
        p -= 1;
        if !rules.may_begin(p, room.set()) {
            continue;
        }
        room.put(p);
        let mut last = last_below(alloc, rules, room, p)?;
        if last.is_none() && rules.complete(room.set()) {
            last = Some(Vec::from_slice(alloc, room.set())?);
        }
        room.take();
        if last.is_some() {
            return Ok(last);
        }
    }
    Ok(None)
}

/// What the lines of sets are printed from.
#[derive(Drop)]
pub struct SetLines<'a> {
    pub alloc: Global,
    pub features: &'a [Feature],
    pub texts: &'a Texts,
    /// The last listed set, whose line is printed apart from the others.
    pub last: &'a [usize],
}

/// Prints the line of the set of `least` and other positions, whose names are in `others`.
fn print_set<W: Sink>(
    features: &[Feature],
    texts: &Texts,
    least: usize,
    others: &str,
    page: &mut String,
    out: &mut W,
) -> io::Result<()>
    requires texts { AreTexts (map name_of features.now) texts.now }
    requires least { least < length features.now }
    ensures ok { (s : List ℕ) → others.now ≡ others_text (items_at (map name_of features.now) s)
        → OnOk result (PrintsText (W.contents out.old) (W.contents out.new)
        (string_bytes page.old) (string_bytes page.new)
        (run_line (map name_of features.now) (Set (least ∷ s)))) }
    ensures err { (s : List ℕ) → others.now ≡ others_text (items_at (map name_of features.now) s)
        → OnErr result (AppendsFront (W.contents out.old) (W.contents out.new)
        (string_bytes page.old ++ run_line (map name_of features.now) (Set (least ∷ s)))) }
    ensures counted { CountsUnlessMemory (W.failed out.old) (W.failed out.new) result }
{
    print_line(
        texts.no_default.as_str(),
        texts.first[least].as_str(),
        others,
        page,
        out,
    )
}

/// Prints the line of `set`, if it is listed and isn't the last one. The names of its positions but
/// the least are in `others`.
fn print_other<W: Sink>(
    lines: &SetLines<'_>,
    rules: &Rules<'_>,
    set: &[usize],
    others: &str,
    page: &mut String,
    out: &mut W,
) -> io::Result<()>
    requires texts { AreTexts (map name_of lines.now.features.now) lines.now.texts.now }
    requires below { All (λ p. p < length lines.now.features.now) set.now }
    requires set { IsSelection (size_of rules.now) set.now }
    ensures ok { (p : ℕ) (s : List ℕ) → set.now ≡ p ∷ s
        → others.now ≡ others_text (items_at (map name_of lines.now.features.now) s)
        → OnOk result (PrintsText (W.contents out.old) (W.contents out.new)
        (string_bytes page.old) (string_bytes page.new)
        (set_lines (map name_of lines.now.features.now)
        (filter (is_other rules.now lines.now.last.now) (set.now ∷ [])))) }
    ensures err { (p : ℕ) (s : List ℕ) → set.now ≡ p ∷ s
        → others.now ≡ others_text (items_at (map name_of lines.now.features.now) s)
        → OnErr result (AppendsFront (W.contents out.old) (W.contents out.new)
        (string_bytes page.old ++ set_lines (map name_of lines.now.features.now)
        (filter (is_other rules.now lines.now.last.now) (set.now ∷ [])))) }
    ensures counted { CountsUnlessMemory (W.failed out.old) (W.failed out.new) result }
{
    if rules.complete(set) && set != lines.last {
        let Some(least) = set.first() else {
            return Ok(());
        };
        print_set(lines.features, lines.texts, *least, others, page, out)
    } else {
        Ok(())
    }
}

/// The name of the position `least`, followed by the names in `others`.
fn longer(
    alloc: Global,
    features: &[Feature],
    texts: &Texts,
    least: usize,
    others: &str,
) -> Result<String, AllocError>
    requires texts { AreTexts (map name_of features.now) texts.now }
    requires least { least < length features.now }
    ensures { (s : List ℕ) → others.now ≡ others_text (items_at (map name_of features.now) s)
        → IfOk result (λ longer. string_bytes longer
        ≡ others_text (items_at (map name_of features.now) (least ∷ s))) }
{
    let next = texts.next[least].as_str();
    let mut longer = String::with_capacity(alloc, next.len().saturating_add(others.len()))?;
    longer.push_str(next)?;
    longer.push_str(others)?;
    Ok(longer)
}

/// What sets end with: the names of some positions, none of which is below `limit`.
#[derive(Clone, Copy)]
pub struct SetEnd<'a> {
    pub limit: usize,
    pub names: &'a str,
}

/// Prints the lines of the listed sets, except of the last one, that consist of the set in the room
/// and one or more positions below the limit of the end, which has the names of the set in the
/// room.
pub fn print_below<W: Sink>(
    lines: &SetLines<'_>,
    rules: &mut Rules<'_>,
    room: &mut SetRoom,
    end: SetEnd<'_>,
    page: &mut String,
    out: &mut W,
) -> io::Result<()>
    requires texts { AreTexts (map name_of lines.now.features.now) lines.now.texts.now }
    requires size { size_of rules.old ≡ length lines.now.features.now }
    requires room { most_in room.old ≡ size_of rules.old }
    requires set { IsSelection (size_of rules.old) (set_in room.old) }
    requires above { All (λ p. end.limit ≤ p) (set_in room.old) }
    requires limit { end.limit ≤ size_of rules.old }
    requires names { end.names.now
        ≡ others_text (items_at (map name_of lines.now.features.now) (set_in room.old)) }
    ensures ok { OnOk result (PrintsText (W.contents out.old) (W.contents out.new)
        (string_bytes page.old) (string_bytes page.new)
        (set_lines (map name_of lines.now.features.now)
        (filter (is_other rules.old lines.now.last.now)
        (below (may_of rules.old) end.entry.limit (set_in room.old))))) }
    ensures err { OnErr result (AppendsFront (W.contents out.old) (W.contents out.new)
        (string_bytes page.old ++ set_lines (map name_of lines.now.features.now)
        (filter (is_other rules.old lines.now.last.now)
        (below (may_of rules.old) end.entry.limit (set_in room.old))))) }
    ensures kept { OnOk result (set_in room.new ≡ set_in room.old) }
    ensures room { most_in room.new ≡ most_in room.old }
    ensures same_size { size_of rules.new ≡ size_of rules.old }
    ensures same_may { may_of rules.new ≡ may_of rules.old }
    ensures same_whole { whole_of rules.new ≡ whole_of rules.old }
    ensures counted { CountsUnlessMemory (W.failed out.old) (W.failed out.new) result }
{
    for p in 0..end.limit {
        if !rules.may_begin(p, room.set()) {
            continue;
        }
        room.put(p);
        print_other(lines, rules, room.set(), end.names, page, out)?;
        if p > 0 && !is_full(rules, room.set().len()) {
            let longer = longer(lines.alloc, lines.features, lines.texts, p, end.names)?;
            let end = SetEnd {
                limit: p,
                names: longer.as_str(),
            };
            print_below(lines, rules, room, end, page, out)?;
        }
        room.take();
    }
    Ok(())
}

/// The names of the positions as they are printed after another name.
fn names_behind_another(
    alloc: Global,
    features: &[Feature],
    texts: &Texts,
    positions: &[usize],
) -> Result<String, AllocError>
    requires texts { AreTexts (map name_of features.now) texts.now }
    requires below { All (λ p. p < length features.now) positions.now }
    ensures { IfOk result (λ others. string_bytes others
        ≡ others_text (items_at (map name_of features.now) positions.now)) }
{
    let mut others = String::new(alloc);
    for p in positions {
        others.push_str(texts.next[*p].as_str())?;
    }
    Ok(others)
}

/// Prints the line of a set that isn't empty.
pub fn print_whole<W: Sink>(
    alloc: Global,
    features: &[Feature],
    texts: &Texts,
    set: &[usize],
    page: &mut String,
    out: &mut W,
) -> io::Result<()>
    requires texts { AreTexts (map name_of features.now) texts.now }
    requires below { All (λ p. p < length features.now) set.now }
    requires some { 0 < length set.now }
    ensures ok { OnOk result (PrintsText (W.contents out.old) (W.contents out.new)
        (string_bytes page.old) (string_bytes page.new)
        (run_line (map name_of features.now) (Set set.now))) }
    ensures err { OnErr result (AppendsFront (W.contents out.old) (W.contents out.new)
        (string_bytes page.old ++ run_line (map name_of features.now) (Set set.now))) }
    ensures counted { CountsUnlessMemory (W.failed out.old) (W.failed out.new) result }
{
    let Some((least, rest)) = set.split_first() else {
        return Ok(());
    };
    let others = names_behind_another(alloc, features, texts, rest)?;
    print_set(features, texts, *least, others.as_str(), page, out)
}
