//! A caller in memory starts nothing ahead: each command is run at its turn.

ghost use Rattle.std.specs.Prelude.{◌≡◌, ◌++◌};
ghost use Rattle.hack_process.specs.Fake.{made_by};
ghost use Rattle.hack_starts.specs.Events.{calls_of};
ghost use Rattle.hack_starts.specs.JoinedCalls.{calls_none, calls_more};

use crate::starts::{Lane, Starts};
use hack_process::process::{Called, Caller, FakeCaller};
use std::alloc::{AllocError, Global};

impl Starts for FakeCaller {
    ghost did = { λ events a b. made_by b ≡ made_by a ++ calls_of events };

    ghost did_none = { λ a. calls_none (made_by a) };

    ghost did_more = { λ events more a b c p q.
        calls_more events more (made_by a) (made_by b) (made_by c) p q };

    ghost did_calls = { λ _ _ _ p _. p };

    fn perform(
        &mut self,
        alloc: Global,
        program: &str,
        words: &[String],
        capture: bool,
    ) -> Result<Called, AllocError> {
        self.call(alloc, program, words, capture)
    }

    fn start(
        &mut self,
        _alloc: Global,
        _place: usize,
        _lane: Lane<'_>,
        _program: &str,
        _words: &[String],
    ) -> bool {
        false
    }

    fn has_ended(&mut self, _place: usize) -> bool {
        false
    }

    fn finish(
        &mut self,
        _alloc: Global,
        _place: usize,
        _program: &str,
        _words: &[String],
    ) -> Result<Called, AllocError> {
        // Nothing was started, so there is nothing to wait for.
        Err(AllocError)
    }

    fn abandon(&mut self, _alloc: Global, _place: usize) {}

    fn pause(&mut self, _alloc: Global, _ended: usize, _running: usize) {}
}
