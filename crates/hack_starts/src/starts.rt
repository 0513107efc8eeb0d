//! Starts commands ahead of their turn, and waits for them at it.

ghost use Rattle.std.specs.Prelude.{◌≡◌, ◌⊎◌, ◌∷◌, ◌++◌, [], List, IfOk, MatchBool, OnErr, false};
ghost use Rattle.hack_process.specs.Calls.{Answer, WroteNothing, answer_of, asked_call};
ghost use Rattle.hack_starts.specs.Events.{Event, Ran, Started, Ended, Told, Abandoned, Waited};
ghost use Rattle.hack_starts.specs.Events.{calls_of};

use hack_process::process::{Called, Caller};
use std::alloc::{AllocError, Global};

/// Where a command builds, beside others.
#[derive(Clone, Copy)]
pub struct Lane<'a> {
    pub number: usize,
    /// How many lanes there are.
    pub count: usize,
    /// The folder that cargo builds into. Lanes other than 0 have folders of their own below it.
    pub folder: &'a str,
}

/// Runs commands to their end, and starts others ahead of their turn. A command that was started
/// has a place, from 0, which tells it from the others, and a lane, in which no other runs
/// meanwhile.
pub trait Starts: Caller {
    /// What happened between two states, in order.
    ghost did: { List Event → Self → Self → Type 0 };

    /// Nothing happened to what wasn't called.
    ghost did_none: { (a : Self) → did [] a a };

    /// What happened, and what happened after it.
    ghost did_more: { (events more : List Event) (a b c : Self)
        → did events a b → did more b c → did (events ++ more) a c };

    /// Runs a program to its end, as `call` does.
    fn perform(
        &mut self,
        alloc: Global,
        program: &str,
        words: &[String],
        capture: bool,
    ) -> Result<Called, AllocError>
        ensures told { IfOk result (λ called. did (Ran
            (asked_call program.now words.now capture) (answer_of called) ∷ [])
            self.old self.new) }
        ensures refused { OnErr result ((did [] self.old self.new)
            ⊎ ((answer : Answer) × did (Ran (asked_call program.now words.now capture) answer
            ∷ []) self.old self.new)) }
        ensures silent { capture ≡ false →
            IfOk result (λ called. WroteNothing (answer_of called)) };

    /// Starts a program in a lane, with an empty input, and doesn't wait for it: what it writes is
    /// kept apart. False where it can't be started: then nothing was.
    fn start(
        &mut self,
        alloc: Global,
        place: usize,
        lane: Lane<'_>,
        program: &str,
        words: &[String],
    ) -> bool
        ensures { MatchBool result (did (Started place lane.entry.number
            (record { count = lane.entry.count; folder = lane.entry.folder.now })
            (asked_call program.now words.now false) ∷ []) self.old self.new)
            (did [] self.old self.new) };

    /// Whether the command at a place has ended. It doesn't wait.
    fn has_ended(&mut self, place: usize) -> bool
        ensures { MatchBool result (did (Ended place ∷ []) self.old self.new)
            (did [] self.old self.new) };

    /// Waits for the command at a place, which was started with this program and these arguments,
    /// and writes what it wrote to the standard streams of this process. Where memory is refused,
    /// the command is over, and its outcome is lost.
    fn finish(
        &mut self,
        alloc: Global,
        place: usize,
        program: &str,
        words: &[String],
    ) -> Result<Called, AllocError>
        ensures told { IfOk result (λ called. did (Told place
            (asked_call program.now words.now false) (answer_of called) ∷ [])
            self.old self.new) }
        ensures refused { OnErr result (did (Abandoned place ∷ []) self.old self.new) }
        ensures silent { IfOk result (λ called. WroteNothing (answer_of called)) };

    /// Ends the command at a place, with all that it started, and drops what it wrote.
    fn abandon(&mut self, alloc: Global, place: usize)
        ensures { did (Abandoned place ∷ []) self.old self.new };

    /// Waits a moment. So many commands that were started have ended, and so many run.
    fn pause(&mut self, alloc: Global, ended: usize, running: usize)
        ensures { did (Waited ended running ∷ []) self.old self.new };

    /// The calls with their answers are those that came of what happened.
    ghost did_calls: { (events : List Event) (a b : Self) → did events a b → Self.tells
        → Self.calls b ≡ Self.calls a ++ calls_of events };
}
