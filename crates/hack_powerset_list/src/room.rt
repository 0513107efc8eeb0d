//! Room for one set of positions.

ghost use Rattle.std.specs.Prelude.{◌≡◌, ◌<◌, ◌≤◌, ◌∷◌, [], drop, length, IfOk};

use std::alloc::{AllocError, Global};

/// A set of positions that grows and shrinks at its front, in room that is reserved once.
#[derive(Drop)]
pub struct SetRoom {
    /// The set is in the last places.
    places: Vec<usize>,
    /// The place where the set begins.
    start: usize,
    ghost inside: { start ≤ length places.items },
}

impl SetRoom {
    ghost use Rattle.hack_powerset_list.specs.Room.{set_in, most_in};

    /// The empty set, with room for `most` positions.
    pub fn new(alloc: Global, most: usize) -> Result<SetRoom, AllocError>
        ensures set { IfOk result (λ room. set_in room ≡ []) }
        ensures most { IfOk result (λ room. most_in room ≡ most) }
    {
        Ok(SetRoom {
            places: vec![in alloc; 0; most]?,
            start: most,
        })
    }

    /// The set.
    pub fn set(&self) -> &[usize]
        ensures { result.now ≡ set_in self.now }
    {
        &self.places[self.start..]
    }

    /// Puts a position in front of the set.
    pub fn put(&mut self, position: usize)
        requires { length (set_in self.old) < most_in self.old }
        ensures set { set_in self.new ≡ position ∷ set_in self.old }
        ensures most { most_in self.new ≡ most_in self.old }
    {
        self.start -= 1;
        self.places[self.start] = position;
    }

    /// Removes the first position, if there is one.
    pub fn take(&mut self)
        ensures set { set_in self.new ≡ drop 1 (set_in self.old) }
        ensures most { most_in self.new ≡ most_in self.old }
    {
        if self.start < self.places.len() {
            self.start += 1;
        }
    }
}
