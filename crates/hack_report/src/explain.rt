//! What only failed runs have in common, where samples of sets were run to their end.

ghost use Rattle.std.specs.Prelude.{◌≡◌, IfOk, OnErr, OnOk, map};
ghost use Rattle.std.specs.List.{AllZip};
ghost use Rattle.hack_base.specs.Notes.{AddsNotes, note_of};
ghost use Rattle.hack_base.specs.Streams.{WritesAll, stream_of};
ghost use Rattle.hack_load.specs.ContextView.{context_view};
ghost use Rattle.hack_report.specs.Explained.{AreInTurn, IsStrengthAt, SaysSuspects, has_strength};
ghost use Rattle.hack_report.specs.Explained.{AreNotesInTurn, AreSuspectNotes, notes_of_strength};
ghost use Rattle.hack_report.specs.Explained.{AreStrengths, each_strength, with_strength};
ghost use Rattle.hack_session.specs.SuspectNotes.{suspect_notes_on};
ghost use Rattle.hack_session.specs.Suspects.{explained_view};
ghost use Rattle.hack_term.specs.Lines.{info_line};

use hack_base::notice::Notice;
use hack_base::writes::Sink;
use hack_load::context::Context;
use hack_metadata::metadata::PackageId;
use hack_planner::determine::determine_package_list;
use hack_planner::fault::PackagesFault;
use hack_planner::package_rules::PackageRules;
use hack_session::session::Session;
use hack_session::suspect_notes::suspect_notes;
use hack_session::suspects::Explained;
use hack_term::term::Term;
use std::alloc::{AllocError, Global};
use std::slice;

/// Reports which small patterns of candidates only failed runs show: those of the packages of each
/// strength, one strength after another. Where memory is refused, nothing is written.
pub(crate) fn explain<E: Sink>(
    alloc: Global,
    cx: &Context,
    session: &Session,
    term: &Term,
    err: &mut E,
) -> Result<(), AllocError>
    ensures told { OnOk result (SaysSuspects term.now.coloring (context_view cx.now) session.now
        (stream_of E.Sink err.old) (stream_of E.Sink err.new)) }
    ensures refused { OnErr result (err.new ≡ err.old) }
{
    let notices = all_notices(alloc, cx, session)?;
    tell(&notices, term, err);
    Ok(())
}

/// Writes these notices. An error of writing one is ignored.
fn tell<E: Sink>(notices: &[Notice], term: &Term, err: &mut E)
    ensures { WritesAll (map (λ note. info_line term.now.coloring note.text)
        (map note_of notices.now)) (stream_of E.Sink err.old) (stream_of E.Sink err.new) }
{
    for notice in notices {
        let _ = term.info(notice.text.as_str(), err);
    }
}

/// The notices on suspects, one strength after another.
fn all_notices(alloc: Global, cx: &Context, session: &Session) -> Result<Vec<Notice>, AllocError>
    ensures { IfOk result (λ notices. AreNotesInTurn (context_view cx.now) session.now
        (map note_of notices.items)) }
{
    let strengths = strengths_of(alloc, cx)?;
    let each = each_strength(alloc, &strengths)?;
    notices_in_turn(alloc, cx, session, &strengths, &each)
}

/// The notices on the suspects of the packages of each of these strengths.
fn notices_in_turn(
    alloc: Global,
    cx: &Context,
    session: &Session,
    strengths: &[Option<usize>],
    each: &[usize],
) -> Result<Vec<Notice>, AllocError>
    ensures { IfOk result (λ notices. AreInTurn (context_view cx.now) session.now
        strengths.now each.now (map note_of notices.items)) }
{
    let mut notices = Vec::new(alloc);
    for strength in each {
        let mut more = notices_at(alloc, cx, session, strengths, *strength)?;
        notices.append(&mut more)?;
    }
    Ok(notices)
}

/// The notices on the suspects of the packages of this strength.
fn notices_at(
    alloc: Global,
    cx: &Context,
    session: &Session,
    strengths: &[Option<usize>],
    strength: usize,
) -> Result<Vec<Notice>, AllocError>
    ensures { IfOk result (λ notices. AreSuspectNotes (context_view cx.now) session.now
        strengths.now strength (map note_of notices.items)) }
{
    let all = session.suspects(alloc, strength)?;
    let mut notices = Vec::new(alloc);
    add_all(alloc, cx, session, strengths, strength, &all, &mut notices)?;
    Ok(notices)
}

/// Adds the notices on what is explained, of the packages of this strength.
fn add_all(
    alloc: Global,
    cx: &Context,
    session: &Session,
    strengths: &[Option<usize>],
    strength: usize,
    all: &[Explained],
    notices: &mut Vec<Notice>,
) -> Result<(), AllocError>
    ensures { OnOk result (AddsNotes notices.old notices.new (notes_of_strength
        (context_view cx.now) session.now strengths.now strength (map explained_view all.now))) }
{
    for one in all {
        if has_strength(strengths, strength, one.part.package) {
            add_one(alloc, cx, session, one, notices)?;
        }
    }
    Ok(())
}

/// Adds the notices on a part that is explained.
fn add_one(
    alloc: Global,
    cx: &Context,
    session: &Session,
    one: &Explained,
    notices: &mut Vec<Notice>,
) -> Result<(), AllocError>
    ensures { OnOk result (AddsNotes notices.old notices.new (suspect_notes_on session.now.plan
        (context_view cx.now).args.partition (explained_view one.now))) }
{
    let part = slice::from_ref(one);
    let mut more = suspect_notes(alloc, session.plan(), cx.args().partition, part)?;
    notices.append(&mut more)?;
    Ok(())
}

/// Whether a package of these has this strength.
fn has_strength(strengths: &[Option<usize>], strength: usize, member: usize) -> bool
    ensures { result ≡ has_strength strengths.now strength member }
{
    match strengths.get(member) {
        Some(Some(own)) => *own == strength,
        _ => false,
    }
}

/// The strengths that there are, each once, in the order in which they first come.
fn each_strength(alloc: Global, strengths: &[Option<usize>]) -> Result<Vec<usize>, AllocError>
    ensures { IfOk result (λ each. each.items ≡ each_strength strengths.now) }
{
    let mut each = Vec::new(alloc);
    for strength in strengths {
        add_strength(*strength, &mut each)?;
    }
    Ok(each)
}

/// Adds a strength, if there is one that isn't among these.
fn add_strength(strength: Option<usize>, each: &mut Vec<usize>) -> Result<(), AllocError>
    ensures { OnOk result (each.new.items ≡ with_strength strength each.old.items) }
{
    let Some(strength) = strength else {
        return Ok(());
    };
    if !each.contains(&strength) {
        each.push(strength)?;
    }
    Ok(())
}

/// The strength of each package of the plan, in order.
fn strengths_of(alloc: Global, cx: &Context) -> Result<Vec<Option<usize>>, AllocError>
    ensures { IfOk result (λ strengths. AreStrengths (context_view cx.now) strengths.items) }
{
    match determine_package_list(alloc, cx) {
        Ok((list, _)) => strengths_at(alloc, cx, &list.ids),
        Err(PackagesFault::Memory) => Err(AllocError),
        // There is a plan, so the packages are known.
        Err(PackagesFault::Unmatched(_)) => Ok(Vec::new(alloc)),
    }
}

/// The strength of each of these packages.
fn strengths_at(
    alloc: Global,
    cx: &Context,
    ids: &[PackageId],
) -> Result<Vec<Option<usize>>, AllocError>
    ensures { IfOk result (λ strengths. AllZip (IsStrengthAt (context_view cx.now))
        (map (λ id. id.index) ids.now) strengths.items) }
{
    let mut strengths = Vec::new(alloc);
    for id in ids {
        strengths.push(strength_at(cx, *id))?;
    }
    Ok(strengths)
}

/// The strength of a package.
fn strength_at(cx: &Context, id: PackageId) -> Option<usize>
    ensures { IsStrengthAt (context_view cx.now) id.index result }
{
    match cx.metadata().find(id) {
        Some(pkg) => PackageRules::strength_at(cx, pkg),
        None => None,
    }
}
