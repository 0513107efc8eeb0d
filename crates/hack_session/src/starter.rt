//! Who performs the steps of a plan by commands.

ghost use Rattle.std.specs.Prelude.{◌≡◌, List, ℕ, false, true};
ghost use Rattle.std.proofs.Common.{◌∙◌, refl};
ghost use Rattle.hack_base.specs.Streams.{WritesText, stream_of};
ghost use Rattle.hack_session.specs.References.{IsHandedOver};
ghost use Rattle.hack_session.specs.JoinedSteps.{error_alone, done_more, manner_stays};
ghost use Rattle.hack_session.specs.StepEffects.{DoesAll, IsToldAs, is_run as is_run_step, state};
ghost use Rattle.hack_session.specs.StepOutput.{manner_of, streams};
ghost use Rattle.hack_term.specs.Lines.{error_line};

use crate::calls::is_memory;
use crate::perform::perform;
use crate::runner::Runner;
use crate::screen::Screen;
use crate::step::{Outcome, Step};
use hack_base::writes::Sink;
use hack_plan::plan::Plan;
use hack_process::process::{Caller, ProcessFault};
use hack_term::term::{LogGroup, Term};
use std::alloc::Global;

/// Performs steps by commands through a caller, and prints their lines on writers.
#[derive(Drop)]
pub struct Starter<'a, C: Caller, O: Sink, E: Sink> {
    pub alloc: Global,
    pub caller: &'a mut C,
    pub term: &'a mut Term,
    /// Where the lines of log groups go.
    pub out: &'a mut O,
    /// Where all other lines go.
    pub err: &'a mut E,
    log_group: LogGroup,
    /// Whether runs go on after a failed one.
    keep_going: bool,
    /// Why the step failed that stopped the session. It isn't reported yet, since its line comes
    /// last. Out of memory isn't kept here.
    pub fault: &'a mut Option<ProcessFault>,
    /// How many steps were cut short because memory was refused, which is reported at once.
    pub refused: u64,
}

impl<'a, C: Caller, O: Sink, E: Sink> Starter<'a, C, O, E> {
    /// A starter that doesn't group lines, and that the first error stops. That error goes to
    /// `fault`.
    pub fn new(
        alloc: Global,
        caller: &'a mut C,
        term: &'a mut Term,
        out: &'a mut O,
        err: &'a mut E,
        fault: &'a mut Option<ProcessFault>,
    ) -> Starter<'a, C, O, E>
        ensures log_group { result.log_group ≡ LogGroup.None }
        ensures keep_going { result.keep_going ≡ false }
        ensures refused { result.refused ≡ 0 }
        ensures caller { IsHandedOver caller.entry result.caller }
        ensures term { IsHandedOver term.entry result.term }
        ensures out { IsHandedOver out.entry result.out }
        ensures err { IsHandedOver err.entry result.err }
        ensures fault { IsHandedOver fault.entry result.fault }
    {
        Starter {
            alloc,
            caller,
            term,
            out,
            err,
            log_group: LogGroup::None,
            keep_going: false,
            fault,
            refused: 0,
        }
    }

    /// Makes the starter print lines by this kind of log groups. With `keep_going` the error of a
    /// run doesn't stop it any more.
    pub fn set_manner(&mut self, log_group: LogGroup, keep_going: bool)
        ensures { self.new ≡ record self.old { log_group = log_group; keep_going = keep_going } }
    {
        self.log_group = log_group;
        self.keep_going = keep_going;
    }
}

impl<C: Caller, O: Sink, E: Sink> Runner for Starter<'_, C, O, E> {
    ghost ran = { λ plan steps a b. (a.caller.ghost_name ≡ b.caller.ghost_name)
        × (a.term.ghost_name ≡ b.term.ghost_name)
        × (a.fault.ghost_name ≡ b.fault.ghost_name)
        × (a.out.ghost_name ≡ b.out.ghost_name)
        × (a.err.ghost_name ≡ b.err.ghost_name)
        × (a.keep_going ≡ b.keep_going)
        × (a.log_group ≡ b.log_group)
        × (b.term.now ≡ record a.term.now { error = b.term.now.error })
        × C.course a.caller.now b.caller.now
        × DoesAll C.tells a.keep_going (manner_of a.log_group a.term.now) plan steps
        (state (C.calls a.caller.now)
        (streams O.Sink E.Sink a.out.now a.err.now)
        a.fault.now a.term.now.error a.refused)
        (state (C.calls b.caller.now)
        (streams O.Sink E.Sink b.out.now b.err.now)
        b.fault.now b.term.now.error b.refused) };

    ghost ran_none = { λ plan a. (
      refl,
      refl,
      refl,
      refl,
      refl,
      refl,
      refl,
      refl,
      C.course_none a.caller.now,
      refl,
    ) };

    ghost ran_more = { λ plan steps more a b c p q. (
      p.0 ∙ q.0,
      p.1 ∙ q.1,
      p.2 ∙ q.2,
      p.3 ∙ q.3,
      p.4 ∙ q.4,
      p.5 ∙ q.5,
      p.6 ∙ q.6,
      error_alone a.term.now b.term.now c.term.now p.7 q.7,
      C.course_more a.caller.now b.caller.now c.caller.now p.8 q.8,
      done_more C.tells a.keep_going b.keep_going (manner_of a.log_group a.term.now)
          (manner_of b.log_group b.term.now) plan steps more
          (state (C.calls a.caller.now)
          (streams O.Sink E.Sink a.out.now a.err.now)
          a.fault.now a.term.now.error a.refused)
          (state (C.calls b.caller.now)
          (streams O.Sink E.Sink b.out.now b.err.now)
          b.fault.now b.term.now.error b.refused)
          (state (C.calls c.caller.now)
          (streams O.Sink E.Sink c.out.now c.err.now)
          c.fault.now c.term.now.error c.refused)
          p.5 (manner_stays a.log_group b.log_group a.term.now b.term.now p.6 p.7) p.9 q.9,
    ) };

    fn step(&mut self, plan: &Plan, step: Step) -> Outcome {
        let mut screen = Screen {
            term: self.term,
            out: self.out,
            err: self.err,
            log_group: self.log_group,
        };
        match perform(self.alloc, plan, step, self.caller, &mut screen) {
            Ok(()) => Outcome::Passed,
            Err(fault) => {
                if is_memory(&fault) {
                    self.refused = self.refused.saturating_add(1);
                    let _ = self.term.error("out of memory", self.err);
                    return Outcome::Failed;
                }
                if self.keep_going && is_run(step) {
                    tell_fault(self.alloc, self.term, self.err, &fault);
                    return Outcome::Failed;
                }
                *self.fault = Some(fault);
                Outcome::Failed
            }
        }
    }
}

fn is_run(step: Step) -> bool
    ensures { result ≡ is_run_step step }
{
    matches!(step, Step::Run(_))
}

/// Reports an error at once.
fn tell_fault<E: Sink>(alloc: Global, term: &mut Term, err: &mut E, fault: &ProcessFault)
    ensures noted { term.new ≡ record term.old { error = true } }
    ensures told { (text : List ℕ) × IsToldAs fault.now text
        × WritesText (error_line term.old.coloring text)
        (stream_of E.Sink err.old) (stream_of E.Sink err.new) }
{
    match format!(in alloc; "{fault}") {
        Ok(text) => {
            let _ = term.error(&text, err);
        }
        Err(_) => {
            let _ = term.error("out of memory", err);
        }
    }
}
