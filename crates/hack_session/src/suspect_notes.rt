//! The notices on suspects.

ghost use Rattle.std.specs.Prelude.{◌≡◌, ◌++◌, ◌∷◌, ◌-◌, [], IfOk, OnOk, map, nat_lt, codes, take};
ghost use Rattle.std.specs.Prelude.{option_map, slice_get, string_bytes, unwrap_or, if◌then◌else◌};
ghost use Rattle.std.specs.Fmt.{decimal};
ghost use Rattle.std.specs.List.{flat_map, list_any, slice_index_or};
ghost use Rattle.hack_base.specs.Names.{names_of};
ghost use Rattle.hack_base.specs.Notes.{AddsNotes, note_of, info_note};
ghost use Rattle.hack_features.specs.Feature.{groups_of};
ghost use Rattle.hack_plan.specs.Commands.{name_in};
ghost use Rattle.hack_samples.specs.Sets.{rows_of};
ghost use Rattle.hack_session.specs.Suspects.{explained_view};
ghost use Rattle.hack_session.specs.SuspectNotes.{ending, headed_lines, heading_text, lacking_text};
ghost use Rattle.hack_session.specs.SuspectNotes.{for_target_text, too_many_text, version_words};
ghost use Rattle.hack_session.specs.SuspectNotes.{has_setting, missed_text, piece_text, place_text};
ghost use Rattle.hack_session.specs.SuspectNotes.{have_text, more_text, state_text, who_text};
ghost use Rattle.hack_session.specs.SuspectNotes.{missed_lines, setting_text, suspect_text};
ghost use Rattle.hack_session.specs.SuspectNotes.{most_lines, package_candidates, suspect_notes_on};

use crate::suspects::{Explained, Part, count_candidates};
use hack_base::notice::{Notice, NoticeKind};
use hack_features::Feature;
use hack_partition::partition::Partition;
use hack_plan::plan::Plan;
use hack_samples::Setting;
use hack_versions::version::Version;
use std::alloc::{AllocError, Global};

/// How many suspects are shown at most.
const MOST_LINES: usize = 20;

/// Returns the notices on the patterns that explain failed runs: for each part with such patterns a
/// heading, a line for each of the first twenty, and one that counts the others. A further line
/// counts the failed runs that none explains. A part with too many patterns to look at has a line
/// that says so. Where a piece was run, headings say that they speak of its runs alone.
pub fn suspect_notes(
    alloc: Global,
    plan: &Plan,
    piece: Option<Partition>,
    explained: &[Explained],
) -> Result<Vec<Notice>, AllocError>
    ensures { IfOk result (λ notices. map note_of notices.items
        ≡ flat_map (suspect_notes_on plan.now piece) (map explained_view explained.now)) }
{
    let mut notices = Vec::new(alloc);
    for one in explained {
        add_notes(alloc, plan, piece, one, &mut notices)?;
    }
    Ok(notices)
}

/// Adds the notices on a part.
fn add_notes(
    alloc: Global,
    plan: &Plan,
    piece: Option<Partition>,
    one: &Explained,
    notices: &mut Vec<Notice>,
) -> Result<(), AllocError>
    ensures { OnOk result (AddsNotes notices.old notices.new
        (suspect_notes_on plan.now piece (explained_view one.now))) }
{
    match &one.suspects {
        Some(found) => {
            add_found(alloc, plan, piece, one, found.as_slice(), notices)?;
            let candidates = count_candidates(plan, one.part.package);
            add_missed(alloc, candidates, one, notices)
        }
        None => add_info(notices, too_many_text(alloc, plan, one.part)?),
    }
}

/// Adds the notices on the suspects of a part, where one of them has a setting.
fn add_found(
    alloc: Global,
    plan: &Plan,
    piece: Option<Partition>,
    one: &Explained,
    found: &[Vec<Setting>],
    notices: &mut Vec<Notice>,
) -> Result<(), AllocError>
    ensures { OnOk result (AddsNotes notices.old notices.new
        (headed_lines plan.now piece (explained_view one.now) (rows_of found.now))) }
{
    if !has_setting(found) {
        return Ok(());
    }
    add_info(notices, heading_text(alloc, plan, piece, one)?)?;
    let candidates = candidates_in(plan, one.part.package);
    add_suspects(alloc, candidates, first_ones(found), notices)?;
    add_more(alloc, found.len(), notices)
}

/// Adds the line on the failed runs that show no suspect, where there are some. Their package has so
/// many candidates.
fn add_missed(
    alloc: Global,
    candidates: usize,
    one: &Explained,
    notices: &mut Vec<Notice>,
) -> Result<(), AllocError>
    ensures { OnOk result (AddsNotes notices.old notices.new
        (missed_lines candidates (explained_view one.now))) }
{
    if one.showing >= one.failed {
        return Ok(());
    }
    let missed = one.failed - one.showing;
    add_info(
        notices,
        missed_line(alloc, missed, candidates, one.strength)?,
    )
}

/// Whether one of the patterns has a setting.
fn has_setting(found: &[Vec<Setting>]) -> bool
    ensures { result ≡ list_any has_setting (rows_of found.now) }
{
    found.iter().any(|pattern| !pattern.is_empty())
}

/// The suspects that are shown.
fn first_ones(found: &[Vec<Setting>]) -> &[Vec<Setting>]
    ensures { rows_of result.now ≡ take most_lines (rows_of found.now) }
{
    found.get(..MOST_LINES).unwrap_or(found)
}

/// Adds a line for each of the suspects.
fn add_suspects(
    alloc: Global,
    candidates: &[Feature],
    found: &[Vec<Setting>],
    notices: &mut Vec<Notice>,
) -> Result<(), AllocError>
    ensures { OnOk result (AddsNotes notices.old notices.new
        (map (λ pattern. info_note (suspect_text (groups_of candidates.now) pattern))
        (rows_of found.now))) }
{
    for pattern in found {
        add_info(
            notices,
            suspect_text(alloc, candidates, pattern.as_slice())?,
        )?;
    }
    Ok(())
}

/// Adds the line that says how many suspects aren't shown, where there are some.
fn add_more(alloc: Global, total: usize, notices: &mut Vec<Notice>) -> Result<(), AllocError>
    ensures { OnOk result (AddsNotes notices.old notices.new
        (if nat_lt most_lines total then info_note (more_text (total - most_lines)) ∷ [] else [])) }
{
    if total <= MOST_LINES {
        return Ok(());
    }
    add_info(notices, more_text(alloc, total - MOST_LINES)?)
}

/// Adds a notice.
fn add_info(notices: &mut Vec<Notice>, text: String) -> Result<(), AllocError>
    ensures { OnOk result (AddsNotes notices.old notices.new (info_note (string_bytes text) ∷ [])) }
{
    notices.push(Notice {
        kind: NoticeKind::Info,
        text,
    })?;
    Ok(())
}

/// Returns the heading of a part's suspects.
fn heading_text(
    alloc: Global,
    plan: &Plan,
    piece: Option<Partition>,
    one: &Explained,
) -> Result<String, AllocError>
    ensures { IfOk result (λ text. string_bytes text
        ≡ heading_text plan.now piece (explained_view one.now)) }
{
    let place = place_text(alloc, plan, one.part)?;
    let who = who_text(alloc, one.showing, one.failed)?;
    let scope = piece_text(piece);
    format!(in alloc; "{place} {who} one of these, and no passed run does{scope}:")
}

/// Of which runs a heading speaks, where a piece of the plan was run.
fn piece_text(piece: Option<Partition>) -> &'static str
    ensures { result.now ≡ piece_text piece }
{
    match piece {
        Some(_) => ", of this piece's runs alone",
        None => "",
    }
}

/// Which of the failed runs show a suspect.
fn who_text(alloc: Global, showing: usize, failed: usize) -> Result<String, AllocError>
    ensures { IfOk result (λ text. string_bytes text ≡ who_text showing failed) }
{
    if showing < failed {
        return some_text(alloc, showing, failed);
    }
    if failed == 1 {
        return format!(in alloc; "the one failed run has");
    }
    format!(in alloc; "all {failed} failed runs have")
}

/// Says that so many of the failed runs show a suspect, and not all.
fn some_text(alloc: Global, showing: usize, failed: usize) -> Result<String, AllocError>
    ensures { IfOk result (λ text. string_bytes text ≡ decimal showing ++ (codes " of "
        ++ (decimal failed ++ (codes " failed runs " ++ have_text showing)))) }
{
    let have = have_text(showing);
    format!(in alloc; "{showing} of {failed} failed runs {have}")
}

/// Has or have, of this number of things.
fn have_text(count: usize) -> &'static str
    ensures { result.now ≡ have_text count }
{
    if count == 1 { "has" } else { "have" }
}

/// What a noun ends with, of this number of things.
fn ending(count: usize) -> &'static str
    ensures { result.now ≡ ending count }
{
    if count == 1 { "" } else { "s" }
}

/// The line on the failed runs that show no suspect.
fn missed_line(
    alloc: Global,
    missed: usize,
    candidates: usize,
    strength: usize,
) -> Result<String, AllocError>
    ensures { IfOk result (λ text. string_bytes text
        ≡ missed_text missed ++ lacking_text candidates strength) }
{
    let runs = missed_text(alloc, missed)?;
    let lacking = lacking_text(alloc, candidates, strength)?;
    format!(in alloc; "{runs}{lacking}")
}

/// How many failed runs show no suspect.
fn missed_text(alloc: Global, missed: usize) -> Result<String, AllocError>
    ensures { IfOk result (λ text. string_bytes text ≡ missed_text missed) }
{
    let runs = ending(missed);
    let have = have_text(missed);
    format!(in alloc; "{missed} failed run{runs} {have}")
}

/// What these have: no such pattern, and with which strength to look for one. A pattern that may have
/// each candidate tells any two runs apart: then a passed run has the same candidates on, and no
/// strength helps.
fn lacking_text(alloc: Global, candidates: usize, strength: usize) -> Result<String, AllocError>
    ensures { IfOk result (λ text. string_bytes text ≡ lacking_text candidates strength) }
{
    if strength >= candidates {
        return String::from_str(alloc, " the same features on as a passed run");
    }
    let features = ending(strength);
    let next = strength as u128 + 1;
    let words = "that no passed run has; try --strength";
    format!(in alloc; " no pattern of at most {strength} feature{features} {words} {next}")
}

/// Returns the line on a part with too many patterns to look at.
fn too_many_text(alloc: Global, plan: &Plan, part: Part) -> Result<String, AllocError>
    ensures { IfOk result (λ text. string_bytes text ≡ too_many_text plan.now part) }
{
    let place = place_text(alloc, plan, part)?;
    too_many_words(alloc, place.as_str())
}

/// Returns that line, given the text of where the runs were.
fn too_many_words(alloc: Global, place: &str) -> Result<String, AllocError>
    ensures { IfOk result (λ text. string_bytes text ≡ place.now
        ++ codes " there are too many patterns to look for what the failed runs have in common") }
{
    let words = "there are too many patterns to look for what the failed runs have in common";
    format!(in alloc; "{place} {words}")
}

/// Where runs were: their package, version and target.
fn place_text(alloc: Global, plan: &Plan, part: Part) -> Result<String, AllocError>
    ensures { IfOk result (λ text. string_bytes text ≡ place_text plan.now part) }
{
    let name = name_in(plan, part.package);
    let version = version_words(alloc, part.version)?;
    let target = target_words(alloc, plan.slot_target(part.version, part.slot))?;
    format!(in alloc; "in {name}{version}{target}")
}

/// The name of a package.
fn name_in(plan: &Plan, place: usize) -> &str
    ensures { result.now ≡ unwrap_or (name_in (slice_get plan.now.packages place)) [] }
{
    plan.packages()
        .get(place)
        .map_or("", |member| member.name.as_str())
}

/// The candidates of a package.
fn candidates_in(plan: &Plan, place: usize) -> &[Feature]
    ensures { groups_of result.now ≡ package_candidates (slice_get plan.now.packages place) }
{
    plan.packages()
        .get(place)
        .map_or(&[], |member| member.candidates.as_slice())
}

/// The version of runs, where they have one.
fn version_words(alloc: Global, version: Option<Version>) -> Result<String, AllocError>
    ensures { IfOk result (λ text. string_bytes text ≡ version_words version) }
{
    match version {
        Some(version) => format!(in alloc; " on {version}"),
        None => Ok(String::new(alloc)),
    }
}

/// The target of runs, where their slot has one of its own.
fn target_words(alloc: Global, target: Option<&str>) -> Result<String, AllocError>
    ensures { IfOk result (λ text. string_bytes text
        ≡ for_target_text (option_map (λ text. text.now) target.entry)) }
{
    match target {
        Some(target) => format!(in alloc; " for {target}"),
        None => Ok(String::new(alloc)),
    }
}

/// The line of a suspect.
fn suspect_text(
    alloc: Global,
    candidates: &[Feature],
    pattern: &[Setting],
) -> Result<String, AllocError>
    ensures { IfOk result (λ text. string_bytes text
        ≡ suspect_text (groups_of candidates.now) pattern.now) }
{
    let texts = setting_texts(alloc, candidates, pattern)?;
    let settings = texts.join(alloc, ", ")?;
    format!(in alloc; "    {settings}")
}

/// The texts of settings.
fn setting_texts(
    alloc: Global,
    candidates: &[Feature],
    pattern: &[Setting],
) -> Result<Vec<String>, AllocError>
    ensures { IfOk result (λ texts. map string_bytes texts.items
        ≡ map (setting_text (groups_of candidates.now)) pattern.now) }
{
    let mut texts = Vec::new(alloc);
    for setting in pattern {
        texts.push(setting_text(alloc, candidates, *setting)?)?;
    }
    Ok(texts)
}

/// A candidate's names, and whether it is on.
fn setting_text(
    alloc: Global,
    candidates: &[Feature],
    setting: Setting,
) -> Result<String, AllocError>
    ensures { IfOk result (λ text. string_bytes text
        ≡ setting_text (groups_of candidates.now) setting) }
{
    let names = names_at(candidates, setting.candidate).join(alloc, ",")?;
    let state = state_text(setting.on);
    format!(in alloc; "{names} {state}")
}

/// The names of the features of the candidate at an index.
fn names_at(candidates: &[Feature], place: usize) -> &[String]
    ensures { names_of result.now ≡ slice_index_or (groups_of candidates.now) place [] }
{
    candidates
        .get(place)
        .map_or(&[], |feature| feature.as_group())
}

/// On or off.
fn state_text(on: bool) -> &'static str
    ensures { result.now ≡ state_text on }
{
    if on { "on" } else { "off" }
}

/// The line that says how many more suspects there are.
fn more_text(alloc: Global, count: usize) -> Result<String, AllocError>
    ensures { IfOk result (λ text. string_bytes text ≡ more_text count) }
{
    format!(in alloc; "    and {count} more")
}
