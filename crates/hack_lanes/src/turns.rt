//! A caller at which places have turns.

ghost use Rattle.std.specs.Prelude.{◌≡◌, [], List, None, Some, map};
ghost use Rattle.hack_process.specs.Calls.{Call};
ghost use Rattle.hack_starts.specs.Events.{Event};
ghost use Rattle.hack_lanes.specs.Lanes.{Goes, Scene};
ghost use Rattle.hack_lanes.specs.Views.{offer_of};

use crate::job::Job;
use hack_process::process::Caller;

/// A caller that may start commands ahead of their turn.
pub trait Turns: Caller {
    /// Who starts commands.
    ghost Below: { Type 0 };

    /// What happened between two states of who starts commands.
    ghost did: { List Event → Below → Below → Type 0 };

    /// The turn, what was started, and who starts commands.
    ghost scene: { Self → Scene Below };

    /// What each call keeps, such as references.
    ghost stays: { Self → Self → Type 0 };

    ghost stays_none: { (a : Self) → stays a a };

    ghost stays_more: { (a b c : Self) → stays a b → stays b c → stays a c };

    /// How many commands run at once.
    fn width(&self) -> usize
        ensures { result ≡ (scene self.now).turn.layout.count };

    /// How many more commands may be started before the first one is told.
    fn room(&self) -> usize;

    /// The last place whose command was started.
    fn last(&self) -> Option<usize>;

    /// Gives a place its turn, at which these commands may be started.
    fn give_turn(&mut self, place: usize, offers: Vec<Job>)
        ensures scene { scene self.new ≡ record (scene self.old) {
          turn = record (scene self.old).turn {
            place = Some place;
            offers = map offer_of offers.items;
          };
        } }
        ensures calls { Self.calls self.new ≡ Self.calls self.old }
        ensures stays { stays self.old self.new };

    /// Ends the turn.
    fn take_turn(&mut self)
        ensures scene { scene self.new ≡ record (scene self.old) {
          turn = record (scene self.old).turn { place = None; offers = [] };
        } }
        ensures calls { Self.calls self.new ≡ Self.calls self.old }
        ensures stays { stays self.old self.new };

    /// Calls follow the rules of lanes.
    ghost goes: { (a b : Self) → Self.course a b
        → stays a b × ((told : List Call) × Goes did told (scene a) (scene b)) };
}
