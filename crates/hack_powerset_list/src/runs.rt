//! The lines of all runs of a command list.

ghost use Rattle.std.specs.Prelude.{◌≡◌, ◌++◌, [], ◌∷◌, length, map, string_bytes, OnOk, OnErr};
ghost use Rattle.std.specs.Prelude.{if◌then◌else◌};
ghost use Rattle.std.specs.Io.KnownBytes.{Appends};
ghost use Rattle.hack_features.specs.Feature.{name_of};
ghost use Rattle.hack_features.specs.View.{size_of};
ghost use Rattle.hack_base.specs.Writes.{AppendsFront};
ghost use Rattle.hack_plan.specs.Runs.{Plain, NoDefaultFeatures, run_if, runs_from};
ghost use Rattle.hack_plan.specs.RunsView.{with_last_first};
ghost use Rattle.hack_powerset_list.specs.Lines.{run_lines};
ghost use Rattle.hack_powerset_list.specs.LineWords.{PrintsText};
ghost use Rattle.hack_powerset_list.specs.LinesView.{AreTexts};
ghost use Rattle.hack_powerset_list.specs.ListRuns.{options_from};
ghost use Rattle.hack_powerset_list.specs.Room.{set_in, most_in};
ghost use Rattle.hack_powerset_list.specs.Walks.{EndsIn, listed_in, set_lines};
ghost use Rattle.hack_powerset_list.specs.Streams.{CountsUnlessMemory};

use crate::lines::{Texts, empty_page, print_line};
use crate::room::SetRoom;
use crate::walk::{SetEnd, SetLines, last_below, print_below, print_whole};
use crate::wishes::Wishes;
use hack_base::writes::{Sink, write_front};
use hack_features::{Feature, Rules};
use hack_plan::runs::fits_two;
use std::alloc::Global;
use std::io;

/// Prints the line of the run that comes before those of sets: the plain run if `plain` is true,
/// else the run with no features if `no_default` is true, else none.
fn print_front<W: Sink>(
    features: &[Feature],
    texts: &Texts,
    plain: bool,
    no_default: bool,
    page: &mut String,
    out: &mut W,
) -> io::Result<()>
    requires texts { AreTexts (map name_of features.now) texts.now }
    ensures ok { OnOk result (PrintsText (W.contents out.old) (W.contents out.new)
        (string_bytes page.old) (string_bytes page.new) (run_lines (map name_of features.now)
        (if plain then Plain ∷ [] else run_if no_default NoDefaultFeatures))) }
    ensures err { OnErr result (AppendsFront (W.contents out.old) (W.contents out.new)
        (string_bytes page.old ++ run_lines (map name_of features.now)
        (if plain then Plain ∷ [] else run_if no_default NoDefaultFeatures))) }
    ensures counted { CountsUnlessMemory (W.failed out.old) (W.failed out.new) result }
{
    if plain {
        print_line(texts.plain.as_str(), "", "", page, out)
    } else if no_default {
        print_line(texts.no_default.as_str(), "", "", page, out)
    } else {
        Ok(())
    }
}

/// Prints the lines of the listed sets; the line of the last set comes before the others or after
/// them.
fn print_sets<W: Sink>(
    lines: &SetLines<'_>,
    rules: &mut Rules<'_>,
    last_first: bool,
    room: &mut SetRoom,
    page: &mut String,
    out: &mut W,
) -> io::Result<()>
    requires texts { AreTexts (map name_of lines.now.features.now) lines.now.texts.now }
    requires size { size_of rules.old ≡ length lines.now.features.now }
    requires room { most_in room.old ≡ size_of rules.old }
    requires none { set_in room.old ≡ [] }
    requires last { EndsIn (listed_in rules.old) lines.now.last.now }
    ensures ok { OnOk result (PrintsText (W.contents out.old) (W.contents out.new)
        (string_bytes page.old) (string_bytes page.new)
        (set_lines (map name_of lines.now.features.now)
        (with_last_first last_first (listed_in rules.old)))) }
    ensures err { OnErr result (AppendsFront (W.contents out.old) (W.contents out.new)
        (string_bytes page.old ++ set_lines (map name_of lines.now.features.now)
        (with_last_first last_first (listed_in rules.old)))) }
    ensures counted { CountsUnlessMemory (W.failed out.old) (W.failed out.new) result }
{
    let alloc = lines.alloc;
    let end = SetEnd {
        limit: lines.features.len(),
        names: "",
    };
    if last_first {
        print_whole(alloc, lines.features, lines.texts, lines.last, page, out)?;
        print_below(lines, rules, room, end, page, out)
    } else {
        print_below(lines, rules, room, end, page, out)?;
        print_whole(alloc, lines.features, lines.texts, lines.last, page, out)
    }
}

/// Prints the lines of all runs.
fn print_runs<W: Sink>(
    alloc: Global,
    wishes: &Wishes,
    features: &[Feature],
    rules: &mut Rules<'_>,
    page: &mut String,
    out: &mut W,
) -> io::Result<()>
    requires { size_of rules.old ≡ length features.now }
    ensures ok { OnOk result (PrintsText (W.contents out.old) (W.contents out.new)
        (string_bytes page.old) (string_bytes page.new) (run_lines (map name_of features.now)
        (runs_from (options_from wishes.now features.now) (listed_in rules.old)))) }
    ensures err { OnErr result (AppendsFront (W.contents out.old) (W.contents out.new)
        (string_bytes page.old ++ run_lines (map name_of features.now)
        (runs_from (options_from wishes.now features.now) (listed_in rules.old)))) }
    ensures counted { CountsUnlessMemory (W.failed out.old) (W.failed out.new) result }
{
    let texts = Texts::of_check(alloc, features)?;
    let mut room = SetRoom::new(alloc, features.len())?;
    let last = last_below(alloc, rules, &mut room, features.len())?;
    let no_default = wishes.at_least_one_of.is_empty();
    let Some(last) = last else {
        return print_front(features, &texts, features.is_empty(), no_default, page, out);
    };
    print_front(features, &texts, false, no_default, page, out)?;
    let lines = SetLines {
        alloc,
        features,
        texts: &texts,
        last: last.as_slice(),
    };
    let last_first = fits_two(wishes.depth);
    print_sets(&lines, rules, last_first, &mut room, page, out)
}

/// Writes the lines of all runs, one after the other, or a front of them if memory is refused or a
/// write fails. The lines are added to a page, which is written whenever it is full.
pub fn write_lines<W: Sink>(
    alloc: Global,
    wishes: &Wishes,
    features: &[Feature],
    rules: &mut Rules<'_>,
    out: &mut W,
) -> io::Result<()>
    requires { size_of rules.old ≡ length features.now }
    ensures all { OnOk result (Appends (W.contents out.old) (W.contents out.new)
        (run_lines (map name_of features.now)
        (runs_from (options_from wishes.now features.now) (listed_in rules.old)))) }
    ensures front { AppendsFront (W.contents out.old) (W.contents out.new)
        (run_lines (map name_of features.now)
        (runs_from (options_from wishes.now features.now) (listed_in rules.old))) }
    ensures counted { CountsUnlessMemory (W.failed out.old) (W.failed out.new) result }
{
    let mut page = empty_page(alloc)?;
    print_runs(alloc, wishes, features, rules, &mut page, out)?;
    write_front(page.as_str(), out)?;
    out.finish()
}
