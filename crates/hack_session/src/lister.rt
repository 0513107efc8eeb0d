//! Who lists the commands of steps.

ghost use Rattle.std.specs.Prelude.{◌≡◌, ◌≢◌, ◌<◌, ◌++◌, Err, IfSome, None, OnOk, Some, codes};
ghost use Rattle.std.specs.Prelude.{false, filter, length, slice_get};
ghost use Rattle.std.specs.Fmt.{with_newline};
ghost use Rattle.std.specs.Io.KnownBytes.{Appends, Keeps};
ghost use Rattle.std.proofs.Common.{◌∙◌, refl};
ghost use Rattle.hack_process.specs.Commands.{command_of, line_text};
ghost use Rattle.hack_plan.specs.Commands.{clean_command};
ghost use Rattle.hack_plan.specs.Lines.{listed_text};
ghost use Rattle.hack_session.specs.Histories.{IsStepOf};
ghost use Rattle.hack_session.specs.ListLines.{ListsAll, is_sent, is_sent_step, line_of, page_of};
ghost use Rattle.hack_session.specs.ListLines.{run_lines_at, step_lines};
ghost use Rattle.hack_session.specs.Internal.{CountsLines};
ghost use Rattle.hack_session.specs.JoinedLists.{listed_more, sent_more};

use crate::lines::{LineFault, Lines};
use crate::runner::Runner;
use crate::step::{Outcome, Step};
use hack_plan::parts::Preparation;
use hack_plan::plan::{Plan, RunLine};
use hack_process::process::{Line, ProcessBuilder};
use std::alloc::Global;
use std::fmt;

/// Writes the commands of steps, one a line, and sends toolchains and lockfiles to a runner.
#[derive(Drop)]
pub struct Lister<'a, W: Lines, R: Runner> {
    pub alloc: Global,
    pub out: &'a mut W,
    pub runner: &'a mut R,
    /// How many steps were cut short because memory was refused.
    pub refused: u64,
}

impl<W: Lines, R: Runner> Runner for Lister<'_, W, R> {
    ghost ran = { λ plan steps a b. (a.out.ghost_name ≡ b.out.ghost_name)
        × (a.runner.ghost_name ≡ b.runner.ghost_name)
        × R.ran plan (filter is_sent steps) a.runner.now b.runner.now
        × ListsAll W.whole plan steps
        (page_of (W.contents a.out.now) (W.failed a.out.now) a.refused)
        (page_of (W.contents b.out.now) (W.failed b.out.now) b.refused)
        × W.stays a.out.now b.out.now };

    ghost ran_none = { λ plan a. (
      refl,
      refl,
      R.ran_none plan a.runner.now,
      refl,
      W.stays_none a.out.now,
    ) };

    ghost ran_more = { λ plan steps more a b c p q. (
      p.0 ∙ q.0,
      p.1 ∙ q.1,
      sent_more plan steps more R.ran a.runner.now b.runner.now c.runner.now R.ran_more p.2 q.2,
      listed_more W.whole plan steps more
          (page_of (W.contents a.out.now) (W.failed a.out.now) a.refused)
          (page_of (W.contents b.out.now) (W.failed b.out.now) b.refused)
          (page_of (W.contents c.out.now) (W.failed c.out.now) c.refused) p.3 q.3,
      W.stays_more a.out.now b.out.now c.out.now p.4 q.4,
    ) };

    fn step(&mut self, plan: &Plan, step: Step) -> Outcome {
        if is_performed(step) {
            return self.runner.step(plan, step);
        }
        match list(self.alloc, self.out, plan, step) {
            Ok(()) => Outcome::Passed,
            Err(LineFault::Unwritten) => Outcome::Failed,
            Err(LineFault::Memory) => {
                self.refused = self.refused.saturating_add(1);
                Outcome::Failed
            }
        }
    }
}

/// Whether a step isn't listed, but performed.
fn is_performed(step: Step) -> bool
    ensures { result ≡ is_sent_step step }
{
    match step {
        Step::Prepare(Preparation::Toolchain(_)) | Step::Prepare(Preparation::Lockfile(_)) => true,
        Step::Prepare(Preparation::Clean(_)) | Step::Skip(_) | Step::Run(_) => false,
    }
}

/// Writes the lines of a step.
fn list<W: Lines>(alloc: Global, out: &mut W, plan: &Plan, step: Step) -> Result<(), LineFault>
    requires of { IsStepOf plan.now step }
    requires listed { is_sent_step step ≡ false }
    ensures written { OnOk result (Appends (W.contents out.old) (W.contents out.new)
        (step_lines plan.now step)) }
    ensures counted { CountsLines (W.failed out.old) (W.failed out.new) result }
    ensures kept { result ≡ Err LineFault.Memory → out.new ≡ out.old }
    ensures left { result ≡ Err LineFault.Unwritten
        → W.whole → Keeps (W.contents out.old) (W.contents out.new) }
    ensures stays { W.stays out.old out.new }
{
    match step {
        Step::Prepare(_) => list_cleaning(alloc, out, plan),
        Step::Skip(_) => Ok(()),
        Step::Run(place) => list_run(alloc, out, plan, place),
    }
}

/// Writes the line of a version's cleaning.
fn list_cleaning<W: Lines>(alloc: Global, out: &mut W, plan: &Plan) -> Result<(), LineFault>
    ensures written { OnOk result (Appends (W.contents out.old) (W.contents out.new)
        (line_of plan.now.call.dir (clean_command plan.now.call None))) }
    ensures counted { CountsLines (W.failed out.old) (W.failed out.new) result }
    ensures kept { result ≡ Err LineFault.Memory → out.new ≡ out.old }
    ensures left { result ≡ Err LineFault.Unwritten
        → W.whole → Keeps (W.contents out.old) (W.contents out.new) }
    ensures stays { W.stays out.old out.new }
{
    let command = plan.cleaning(alloc)?;
    put(out, &command, plan.dir())
}

/// Writes the lines of a run.
fn list_run<W: Lines>(
    alloc: Global,
    out: &mut W,
    plan: &Plan,
    place: usize,
) -> Result<(), LineFault>
    requires { place < length plan.now.entries }
    ensures written { OnOk result (Appends (W.contents out.old) (W.contents out.new)
        (run_lines_at plan.now (slice_get plan.now.entries place))) }
    ensures counted { CountsLines (W.failed out.old) (W.failed out.new) result }
    ensures kept { result ≡ Err LineFault.Memory → out.new ≡ out.old }
    ensures left { result ≡ Err LineFault.Unwritten
        → W.whole → Keeps (W.contents out.old) (W.contents out.new) }
    ensures stays { W.stays out.old out.new }
{
    if !plan.cleans_per_run() {
        return put_text(out, plan.line(alloc, place)?);
    }
    let cleaning = plan.run_cleaning(alloc, place)?;
    let own = plan.line(alloc, place)?;
    put_two(out, &cleaning, own, plan.dir())
}

/// Writes the line of a command.
fn put<W: Lines>(out: &mut W, command: &ProcessBuilder<'_>, dir: &str) -> Result<(), LineFault>
    ensures written { OnOk result (Appends (W.contents out.old) (W.contents out.new)
        (line_of dir.now (command_of command.now))) }
    ensures counted { CountsLines (W.failed out.old) (W.failed out.new) result }
    ensures never { result ≢ Err LineFault.Memory }
    ensures left { result ≡ Err LineFault.Unwritten
        → W.whole → Keeps (W.contents out.old) (W.contents out.new) }
    ensures stays { W.stays out.old out.new }
{
    put_text(out, command.listed(dir))
}

/// Writes the lines of a cleaning and of the run after it as one text. Where `out` writes a text
/// whole or not at all, both lines are written or neither.
fn put_two<'a, W: Lines>(
    out: &mut W,
    cleaning: &'a ProcessBuilder<'a>,
    own: RunLine<'a>,
    dir: &'a str,
) -> Result<(), LineFault>
    ensures written { OnOk result (Appends (W.contents out.old) (W.contents out.new)
        (line_of dir.now (command_of cleaning.now) ++ (listed_text own.entry ++ codes "\n"))) }
    ensures counted { CountsLines (W.failed out.old) (W.failed out.new) result }
    ensures never { result ≢ Err LineFault.Memory }
    ensures left { result ≡ Err LineFault.Unwritten
        → W.whole → Keeps (W.contents out.old) (W.contents out.new) }
    ensures stays { W.stays out.old out.new }
{
    let text = Cleaned {
        cleaning: cleaning.listed(dir),
        own,
    };
    put_text(out, text)
}

/// Writes a text and a line feed.
fn put_text<W: Lines, D: fmt::Display + Drop>(out: &mut W, text: D) -> Result<(), LineFault>
    ensures written { OnOk result (IfSome (with_newline (D.output text))
        (Appends (W.contents out.old) (W.contents out.new))) }
    ensures counted { CountsLines (W.failed out.old) (W.failed out.new) result }
    ensures never { result ≢ Err LineFault.Memory }
    ensures left { result ≡ Err LineFault.Unwritten
        → W.whole → Keeps (W.contents out.old) (W.contents out.new) }
    ensures stays { W.stays out.old out.new }
{
    out.line(text).map_err(|_| LineFault::Unwritten)
}

/// The lines of a run that is cleaned, without the last line feed.
#[derive(Drop)]
struct Cleaned<'a> {
    cleaning: Line<'a>,
    own: RunLine<'a>,
}

impl fmt::Display for Cleaned<'_> {
    ghost output = { λ s. Some (line_text s.cleaning ++ (codes "\n" ++ listed_text s.own)) };

    fn fmt<W: fmt::Write>(&self, f: &mut fmt::Formatter<W>) -> fmt::Result {
        let cleaning = &self.cleaning;
        let own = &self.own;
        write!(f, "{cleaning}\n{own}")
    }
}
