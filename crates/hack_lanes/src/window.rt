//! The lanes of a call: what was offered for the turn of a place, and what was started of it.

ghost use Rattle.std.specs.Prelude.{◌≡◌, ◌<◌, ◌≤◌, ◌+◌, ◌*◌, ◌∷◌, [], IfOk, IfSome, IsSomeAnd, MatchBool};
ghost use Rattle.std.specs.Prelude.{None, OnErr, Some, count_by, false, length, map};
ghost use Rattle.std.specs.Prelude.{not, slice_get, string_bytes, true};
ghost use Rattle.hack_process.specs.Calls.{WroteNothing, answer_of, asked_call};
ghost use Rattle.hack_lanes.specs.Lanes.{Goes, IsAwaited, IsNew, IsUntold, IsWaitedFor, MayGo};
ghost use Rattle.hack_lanes.specs.Lanes.{is_free, is_pending, is_running};
ghost use Rattle.hack_lanes.specs.Views.{offer_of, pending_of, scene_of, state_of, turn_of};

use crate::child::Child;
use crate::job::Job;
use hack_process::process::Called;
use hack_starts::starts::{Lane, Starts};
use std::alloc::{AllocError, Global};

/// What was offered for the turn of a place, and what was started and isn't told yet.
#[derive(Drop)]
pub struct Window {
    pub(crate) width: usize,
    pub(crate) folder: String,
    /// The place whose turn it is.
    pub(crate) turn: Option<usize>,
    /// What may be started at this turn, in the order of their places.
    pub(crate) offers: Vec<Job>,
    /// The last place whose command was started.
    pub(crate) last: Option<usize>,
    /// What was started and isn't told yet, in order.
    pub(crate) children: Vec<Child>,
}

impl Window {
    /// A window in which so many commands run at once, and in which none was started. Lanes other
    /// than 0 build into folders of their own below `folder`.
    pub fn new(alloc: Global, width: usize, folder: String) -> Window
        ensures turn { turn_of result ≡ record {
          place = None;
          offers = [];
          layout = record { count = width; folder = string_bytes folder };
        } }
        ensures state { state_of result ≡ record { last = None; pending = [] } }
    {
        Window {
            width,
            folder,
            turn: None,
            offers: Vec::new(alloc),
            last: None,
            children: Vec::new(alloc),
        }
    }

    /// How many commands run at once.
    pub fn width(&self) -> usize
        ensures { result ≡ (turn_of self.now).layout.count }
    {
        self.width
    }

    /// How many more commands may be started before the first one is told.
    pub fn room(&self) -> usize
        ensures { 0 < result → length self.now.children.items + result ≤ 2 * self.now.width }
    {
        self.width
            .saturating_mul(2)
            .saturating_sub(self.children.len())
    }

    /// The last place whose command was started.
    pub fn last(&self) -> Option<usize>
        ensures { result ≡ (state_of self.now).last }
    {
        self.last
    }

    /// Whether no command of this place was started.
    fn is_new(&self, place: usize) -> bool
        ensures { MatchBool result (IsNew self.now.last place) (Unit {0}) }
    {
        match self.last {
            Some(last) => last < place,
            None => true,
        }
    }

    /// Gives a place its turn, at which these commands may be started.
    pub fn give_turn(&mut self, place: usize, offers: Vec<Job>)
        ensures turn { turn_of self.new ≡ record (turn_of self.old) {
          place = Some place;
          offers = map offer_of offers.items;
        } }
        ensures state { state_of self.new ≡ state_of self.old }
    {
        self.turn = Some(place);
        self.offers = offers;
    }

    /// Ends the turn.
    pub fn take_turn(&mut self)
        ensures turn { turn_of self.new ≡ record (turn_of self.old) {
          place = None;
          offers = [];
        } }
        ensures state { state_of self.new ≡ state_of self.old }
    {
        self.turn = None;
        self.offers.clear();
    }

    /// Ends each command that was started and isn't told, and drops its outcome.
    pub fn clear<S: Starts>(&mut self, alloc: Global, starts: &mut S)
        ensures goes { Goes S.did [] (scene_of self.old starts.old)
            (scene_of self.new starts.new) }
        ensures none { (state_of self.new).pending ≡ [] }
    {
        while !self.children.is_empty() {
            self.abandon_first(alloc, starts);
        }
    }

    /// Ends the first of the started commands.
    fn abandon_first<S: Starts>(&mut self, alloc: Global, starts: &mut S)
        requires { 0 < length self.old.children.items }
        ensures goes { Goes S.did [] (scene_of self.old starts.old)
            (scene_of self.new starts.new) }
        ensures fewer { length self.new.children.items < length self.old.children.items }
    {
        let child = self.children.remove(0);
        starts.abandon(alloc, child.place);
    }

    /// Starts what was offered, in order, as long as a lane is free.
    fn fill<S: Starts>(&mut self, alloc: Global, starts: &mut S)
        ensures goes { Goes S.did [] (scene_of self.old starts.old)
            (scene_of self.new starts.new) }
        ensures kept { IsWaitedFor self.old.turn (state_of self.old)
            → IsWaitedFor self.new.turn (state_of self.new) }
    {
        for index in 0..self.offers.len() {
            if !self.start(alloc, starts, index) {
                return;
            }
        }
    }

    /// Starts one of the offered commands in a free lane, where it wasn't started before. False
    /// where there is none, or where the command can't be started now.
    fn start<S: Starts>(&mut self, alloc: Global, starts: &mut S, index: usize) -> bool
        ensures goes { Goes S.did [] (scene_of self.old starts.old)
            (scene_of self.new starts.new) }
        ensures kept { IsWaitedFor self.old.turn (state_of self.old)
            → IsWaitedFor self.new.turn (state_of self.new) }
    {
        let Some(job) = self.offers.get(index) else {
            return false;
        };
        if !self.is_new(job.place) {
            return true;
        }
        if !self.is_untold() {
            return false;
        }
        let Some(lane) = self.free_lane() else {
            return false;
        };
        let Ok(child) = Child::new(alloc, lane, job) else {
            return false;
        };
        self.start_in(alloc, starts, index, child)
    }

    /// Starts one of the offered commands in a lane that no command runs in.
    fn start_in<S: Starts>(
        &mut self,
        alloc: Global,
        starts: &mut S,
        index: usize,
        child: Child,
    ) -> bool
        requires offered { IsSomeAnd (slice_get self.old.offers.items index) (λ job.
            pending_of child ≡ record {
              place = job.place;
              lane = child.lane;
              asked = (offer_of job).asked;
              over = false;
            }) }
        requires behind { IsNew self.old.last child.place }
        requires within { child.lane < self.old.width }
        requires ahead { length self.old.children.items < 2 * self.old.width }
        requires alone { is_free child.lane (map pending_of self.old.children.items) ≡ true }
        requires untold { IsUntold self.old.turn (state_of self.old) }
        ensures goes { Goes S.did [] (scene_of self.old starts.old)
            (scene_of self.new starts.new) }
        ensures kept { IsWaitedFor self.old.turn (state_of self.old)
            → IsWaitedFor self.new.turn (state_of self.new) }
    {
        let place = child.place;
        let lane = Lane {
            number: child.lane,
            count: self.width,
            folder: self.folder.as_str(),
        };
        let Some(job) = self.offers.get(index) else {
            return false;
        };
        let Ok(()) = self.children.push(child) else {
            return false;
        };
        let (program, words) = (job.program.as_str(), job.words.as_slice());
        if starts.start(alloc, place, lane, program, words) {
            self.last = Some(place);
            return true;
        }
        self.children.pop();
        false
    }

    /// Whether it is no place's turn, or the command of that place isn't told yet.
    fn is_untold(&self) -> bool
        ensures { MatchBool result (IsUntold self.now.turn (state_of self.now)) (Unit {0}) }
    {
        match self.turn {
            Some(place) => self.is_new(place) || self.is_pending(place),
            None => true,
        }
    }

    /// Whether the command of a place was started, and isn't told yet.
    #[tactic(auto, using(hack_base::proofs::Chains::mapped))]
    fn is_pending(&self, place: usize) -> bool
        ensures { result ≡ is_pending place (map pending_of self.now.children.items) }
    {
        self.children.iter().any(|child| child.is_at(place))
    }

    /// Whether the command of a place was started, and hasn't been seen to have ended.
    #[tactic(auto, using(hack_base::proofs::Chains::mapped))]
    fn is_running(&self, place: usize) -> bool
        ensures { result ≡ is_running place (map pending_of self.now.children.items) }
    {
        self.children
            .iter()
            .any(|child| child.is_at(place) && !child.over)
    }

    /// The first lane that no command runs in, where one more may be started.
    fn free_lane(&self) -> Option<usize>
        ensures within { IfSome result (λ lane. lane < self.now.width) }
        ensures ahead { IfSome result (λ _. length self.now.children.items < 2 * self.now.width) }
        ensures alone { IfSome result (λ lane.
            is_free lane (map pending_of self.now.children.items) ≡ true) }
    {
        if self.room() == 0 {
            return None;
        }
        for lane in 0..self.width {
            if self.has_none(lane) {
                return Some(lane);
            }
        }
        None
    }

    /// Whether no command runs in a lane.
    #[tactic(auto, using(hack_base::proofs::Chains::mapped))]
    fn has_none(&self, lane: usize) -> bool
        ensures { result ≡ is_free lane (map pending_of self.now.children.items) }
    {
        self.children.iter().all(|child| child.leaves(lane))
    }

    /// Looks which of the started commands have ended.
    fn look<S: Starts>(&mut self, starts: &mut S)
        requires { IsAwaited self.old.turn (state_of self.old) }
        ensures goes { Goes S.did [] (scene_of self.old starts.old)
            (scene_of self.new starts.new) }
        ensures awaited { IsAwaited self.new.turn (state_of self.new) }
    {
        for index in 0..self.children.len() {
            self.look_at(index, starts);
        }
    }

    fn look_at<S: Starts>(&mut self, index: usize, starts: &mut S)
        requires { IsAwaited self.old.turn (state_of self.old) }
        ensures goes { Goes S.did [] (scene_of self.old starts.old)
            (scene_of self.new starts.new) }
        ensures awaited { IsAwaited self.new.turn (state_of self.new) }
    {
        let Some(child) = self.children.get(index) else {
            return;
        };
        if child.over {
            return;
        }
        if starts.has_ended(child.place) {
            self.children[index].over = true;
        }
    }

    /// Whether the first of the started commands is that of a place, with this program and these
    /// arguments.
    fn is_first(&self, place: usize, program: &str, words: &[String]) -> bool
        ensures { MatchBool result (IsSomeAnd (slice_get self.now.children.items 0) (λ child.
            (child.place ≡ place)
            × ((pending_of child).asked ≡ asked_call program.now words.now false))) (Unit {0}) }
    {
        match self.children.first() {
            Some(child) => child.is_of(place, program, words),
            None => false,
        }
    }

    /// Tells what came of the turn's own command, which is started with others behind it. Where it
    /// can't be started, it is run by itself.
    pub(crate) fn run_in_turn<S: Starts>(
        &mut self,
        alloc: Global,
        starts: &mut S,
        place: usize,
        program: &str,
        words: &[String],
    ) -> Result<Called, AllocError>
        requires { self.old.turn ≡ Some place }
        ensures told { IfOk result (λ called. Goes S.did (record {
          asked = asked_call program.now words.now false;
          answer = answer_of called;
        } ∷ []) (scene_of self.old starts.old) (scene_of self.new starts.new)) }
        ensures refused { OnErr result (MayGo S.did (asked_call program.now words.now false)
            (scene_of self.old starts.old) (scene_of self.new starts.new)) }
        ensures silent { IfOk result (λ called. WroteNothing (answer_of called)) }
    {
        self.await_turn(alloc, starts, place, program, words);
        if self.is_first(place, program, words) {
            return self.tell_first(alloc, starts, place, program, words);
        }
        self.run_alone(alloc, starts, program, words, false)
    }

    /// Starts what was offered, and waits for the turn's own command where it is the first of the
    /// started ones.
    fn await_turn<S: Starts>(
        &mut self,
        alloc: Global,
        starts: &mut S,
        place: usize,
        program: &str,
        words: &[String],
    )
        requires { self.old.turn ≡ Some place }
        ensures { Goes S.did [] (scene_of self.old starts.old)
            (scene_of self.new starts.new) }
    {
        self.fill(alloc, starts);
        if self.is_first(place, program, words) {
            self.await_first(alloc, starts);
        }
    }

    /// Waits until the turn's own command has ended, and starts others meanwhile.
    fn await_first<S: Starts>(&mut self, alloc: Global, starts: &mut S)
        requires { IsAwaited self.old.turn (state_of self.old) }
        ensures { Goes S.did [] (scene_of self.old starts.old)
            (scene_of self.new starts.new) }
    {
        for _ in 0..u64::MAX {
            self.look(starts);
            if !self.is_waited_for() {
                return;
            }
            self.fill(alloc, starts);
            starts.pause(alloc, self.count_ended(), self.count_running());
        }
    }

    /// Whether it is a place's turn whose command was started, and hasn't been seen to have ended.
    fn is_waited_for(&self) -> bool
        ensures { MatchBool result (IsWaitedFor self.now.turn (state_of self.now)) (Unit {0}) }
    {
        match self.turn {
            Some(place) => self.is_running(place),
            None => false,
        }
    }

    /// How many of the started commands have been seen to have ended.
    fn count_ended(&self) -> usize
        ensures { result ≡ count_by (λ child. child.over) self.now.children.items }
    {
        self.children.iter().filter(|child| child.over).count()
    }

    /// How many of the started commands haven't.
    fn count_running(&self) -> usize
        ensures { result ≡ count_by (λ child. not child.over) self.now.children.items }
    {
        self.children.iter().filter(|child| !child.over).count()
    }

    /// Tells how the first of the started commands ended.
    fn tell_first<S: Starts>(
        &mut self,
        alloc: Global,
        starts: &mut S,
        place: usize,
        program: &str,
        words: &[String],
    ) -> Result<Called, AllocError>
        requires turn { self.old.turn ≡ Some place }
        requires first { IsSomeAnd (slice_get self.old.children.items 0) (λ child.
            (child.place ≡ place)
            × ((pending_of child).asked ≡ asked_call program.now words.now false)) }
        ensures told { IfOk result (λ called. Goes S.did (record {
          asked = asked_call program.now words.now false;
          answer = answer_of called;
        } ∷ []) (scene_of self.old starts.old)
            (scene_of self.new starts.new)) }
        ensures refused { OnErr result (Goes S.did [] (scene_of self.old starts.old)
            (scene_of self.new starts.new)) }
        ensures silent { IfOk result (λ called. WroteNothing (answer_of called)) }
    {
        self.children.remove(0);
        starts.finish(alloc, place, program, words)
    }

    /// Runs a command to its end, while nothing else runs.
    pub(crate) fn run_alone<S: Starts>(
        &mut self,
        alloc: Global,
        starts: &mut S,
        program: &str,
        words: &[String],
        capture: bool,
    ) -> Result<Called, AllocError>
        ensures told { IfOk result (λ called. Goes S.did (record {
          asked = asked_call program.now words.now capture;
          answer = answer_of called;
        } ∷ []) (scene_of self.old starts.old)
            (scene_of self.new starts.new)) }
        ensures refused { OnErr result (MayGo S.did (asked_call program.now words.now capture)
            (scene_of self.old starts.old)
            (scene_of self.new starts.new)) }
        ensures silent { capture ≡ false →
            IfOk result (λ called. WroteNothing (answer_of called)) }
    {
        self.clear(alloc, starts);
        if !self.is_turn_new() {
            return Err(AllocError);
        }
        starts.perform(alloc, program, words, capture)
    }

    /// The place whose turn it is, for a call without capture.
    pub(crate) fn own_turn(&self, capture: bool) -> Option<usize>
        ensures turn { IfSome result (λ place. self.now.turn ≡ Some place) }
        ensures plain { IfSome result (λ _. capture ≡ false) }
    {
        if capture { None } else { self.turn }
    }

    /// Whether it is no place's turn, or the turn of one whose command wasn't started.
    fn is_turn_new(&self) -> bool
        ensures { MatchBool result (IfSome self.now.turn (IsNew self.now.last)) (Unit {0}) }
    {
        match self.turn {
            Some(place) => self.is_new(place),
            None => true,
        }
    }
}
