//! Who runs the commands of a call in its lanes.

ghost use Rattle.std.specs.Prelude.{◌≡◌, []};
ghost use Rattle.hack_lanes.specs.Lanes.{Goes};

use crate::job::Job;
use crate::turns::Turns;
use crate::window::Window;
use hack_process::process::{Called, Caller};
use hack_starts::starts::Starts;
use std::alloc::{AllocError, Global};

/// Runs commands through who starts them, some of them ahead of their turn. Each call is told what
/// came of its command alone. At a turn the turn's own command is started, with others behind it,
/// and waited for; where it can't be started, and for any other call, all that was started is
/// ended, and the command is run by itself.
#[derive(Drop)]
pub struct Lanes<'a, S: Starts> {
    pub starts: &'a mut S,
    pub window: &'a mut Window,
}

impl<S: Starts> Caller for Lanes<'_, S> {
    ghost use Rattle.std.proofs.Common.{◌∙◌, refl};
    ghost use Rattle.hack_lanes.specs.JoinedScenes.{course_after, goes_none};
    ghost use Rattle.hack_lanes.specs.Views.{scene_in};
    ghost use Rattle.hack_process.specs.Calls.{Call};
    ghost use Rattle.std.specs.Prelude.{List};

    ghost tells = { S.tells };

    ghost calls = { λ lanes. S.calls lanes.starts.now };

    ghost course = { λ a b. (b.starts.ghost_name ≡ a.starts.ghost_name)
        × (b.window.ghost_name ≡ a.window.ghost_name)
        × ((told : List Call) × Goes S.did told (scene_in a) (scene_in b)) };

    ghost course_none = { λ a. (
      refl,
      refl,
      ([], goes_none S.did (scene_in a) (S.did_none a.starts.now)),
    ) };

    ghost course_more = { λ a b c p q. (
      q.0 ∙ p.0,
      q.1 ∙ p.1,
      course_after S.did (scene_in a) (scene_in b) (scene_in c) S.did_more p.2 q.2,
    ) };

    fn call(
        &mut self,
        alloc: Global,
        program: &str,
        words: &[String],
        capture: bool,
    ) -> Result<Called, AllocError> {
        let Some(place) = self.window.own_turn(capture) else {
            return self
                .window
                .run_alone(alloc, self.starts, program, words, capture);
        };
        self.window
            .run_in_turn(alloc, self.starts, place, program, words)
    }
}

impl<S: Starts> Turns for Lanes<'_, S> {
    ghost use Rattle.std.proofs.Common.{◌∙◌, refl};
    ghost use Rattle.hack_lanes.specs.Views.{scene_in};

    ghost Below = { S };

    ghost did = { S.did };

    ghost scene = { λ lanes. scene_in lanes };

    ghost stays = { λ a b. (b.starts.ghost_name ≡ a.starts.ghost_name)
        × (b.window.ghost_name ≡ a.window.ghost_name) };

    ghost stays_none = { λ a. (refl, refl) };

    ghost stays_more = { λ a b c p q. (q.0 ∙ p.0, q.1 ∙ p.1) };

    ghost goes = { λ a b p. ((p.0, p.1), p.2) };

    fn width(&self) -> usize {
        self.window.width()
    }

    fn room(&self) -> usize {
        self.window.room()
    }

    fn last(&self) -> Option<usize> {
        self.window.last()
    }

    fn give_turn(&mut self, place: usize, offers: Vec<Job>) {
        self.window.give_turn(place, offers);
    }

    fn take_turn(&mut self) {
        self.window.take_turn();
    }
}
