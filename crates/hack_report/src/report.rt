//! The report of the runs that failed.

ghost use Rattle.std.specs.Prelude.{◌≡◌, ◌||◌, IfOk, MatchBool, OnErr, OnOk, false};
ghost use Rattle.std.specs.List.{list_any};
ghost use Rattle.hack_base.specs.Streams.{stream_of};
ghost use Rattle.hack_load.specs.ContextView.{context_view};
ghost use Rattle.hack_report.specs.Reported.{SaysCutReport, SaysReport, WritesReport, are_reported};
ghost use Rattle.hack_report.specs.Reported.{is_failed_preparation as has_unprepared};

use crate::explain::explain;
use hack_base::writes::{Sink, write_front};
use hack_load::context::Context;
use hack_session::session::{Handed, History, Outcome, Session, Step};
use hack_term::term::Term;
use std::alloc::{AllocError, Global};

/// Reports the runs of a session that failed, and what only these have.
pub fn report_all<E: Sink>(
    alloc: Global,
    cx: &Context,
    session: &Session,
    term: &mut Term,
    err: &mut E,
) -> Result<(), AllocError>
    ensures error { OnOk result (term.new.error ≡ (term.old.error || are_reported session.now)) }
    ensures kept { term.new.error ≡ false → term.old.error ≡ false }
    ensures warn { term.new.warn ≡ term.old.warn }
    ensures shown { OnOk result (SaysReport term.old.coloring (context_view cx.now) session.now
        (stream_of E.Sink err.old) (stream_of E.Sink err.new)) }

    // Where memory is refused, the report was written whole before, or nothing was.
    ensures cut { OnErr result (SaysCutReport term.old.coloring session.now
        (stream_of E.Sink err.old) (stream_of E.Sink err.new)) }
    ensures term { term.new ≡ record term.old { error = term.new.error } }
{
    if report(alloc, session, term, err)? {
        explain(alloc, cx, session, term, err)?;
    }
    Ok(())
}

/// Reports the runs that failed, where runs go on after a failed one and each preparation passed.
/// Returns whether there are some.
fn report<E: Sink>(
    alloc: Global,
    session: &Session,
    term: &mut Term,
    err: &mut E,
) -> Result<bool, AllocError>
    ensures told { IfOk result (λ told. told ≡ are_reported session.now) }
    ensures noted { OnOk result (term.new
        ≡ record term.old { error = term.old.error || are_reported session.now }) }
    ensures shown { OnOk result (MatchBool (are_reported session.now)
        (WritesReport term.old.coloring session.now
        (stream_of E.Sink err.old) (stream_of E.Sink err.new))
        (stream_of E.Sink err.new ≡ stream_of E.Sink err.old)) }
    ensures refused { OnErr result ((term.new ≡ term.old) × (err.new ≡ err.old)) }
{
    if is_unprepared(session.handed()) {
        return Ok(false);
    }
    let report = session.report(alloc)?;
    // By `len` it is known that the names are in order.
    if report.commands.len() == 0 {
        return Ok(false);
    }
    let text = format!(in alloc; "{report}")?;
    let _ = write_front("\n", err);
    let _ = term.error(&text, err);
    Ok(true)
}

/// Returns whether a preparation failed.
fn is_unprepared(mut handed: History<'_>) -> bool
    ensures { result ≡ list_any has_unprepared handed.entry }
{
    handed.any(is_failed_preparation)
}

fn is_failed_preparation(handed: Handed) -> bool
    ensures { result ≡ has_unprepared handed }
{
    match handed.outcome {
        Outcome::Passed => false,
        Outcome::Failed => match handed.step {
            Step::Prepare(_) => true,
            Step::Skip(_) | Step::Run(_) => false,
        },
    }
}
