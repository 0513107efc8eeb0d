//! Who is told of what a journal refuses on its own.
//!
//! What the files below refuse they tell themselves. But memory for the journal can be refused too,
//! a look that it needs can fail, its own paths are none of the files, and it keeps edits of
//! manifests alone. Nobody but a journal can say that a call was refused for such a reason.

ghost use Rattle.std.specs.Prelude.{◌≡◌, List, ℕ};
ghost use Rattle.hack_base.specs.Counters.{GrowsBy};

use hack_files::fs::count_failure;

/// A call of a path that a journal refused where the files below refused none. Only a journal
/// makes one.
#[derive(Drop)]
pub struct Refusal<'a> {
    path: &'a str,
}

impl<'a> Refusal<'a> {
    /// The refusal of a call of this path.
    pub(crate) fn of(path: &'a str) -> Self
        ensures path { result.path.now ≡ path.now }
    {
        Refusal { path }
    }

    /// The path that was to be read or written.
    pub fn path(&self) -> &str
        ensures path { result.now ≡ self.now.path.now }
    {
        self.path
    }
}

/// Is told of each call that a journal refuses where the files below refused none.
pub trait Unkept {
    /// How many it was told of. A count of 2^64 - 1 doesn't go up any more.
    ghost told: { Self → ℕ };

    /// Between these states it was told of a write of this path.
    ghost misses: { Self → Self → List ℕ → Type 0 };

    /// Between these states it was told of a read of the journal, and of nothing else.
    ghost reads: { Self → Self → Type 0 };

    /// Tells that a write was refused: what it replaces couldn't be kept.
    fn note(&mut self, refusal: Refusal<'_>)
        ensures told { GrowsBy 1 (told self.old) (told self.new) }
        ensures path { misses self.old self.new refusal.entry.path.now };

    /// Tells that a path of the journal was to be read.
    fn note_read(&mut self, refusal: Refusal<'_>)
        ensures told { GrowsBy 1 (told self.old) (told self.new) }
        ensures read { reads self.old self.new };

    /// How many it was told of.
    fn count(&self) -> u64
        ensures { result ≡ told self.now };
}

/// A number counts them.
impl Unkept for u64 {
    ghost told = { λ count. count };

    ghost misses = { λ old new _. GrowsBy 1 old new };

    ghost reads = { λ old new. GrowsBy 1 old new };

    fn note(&mut self, _refusal: Refusal<'_>) {
        count_failure(self);
    }

    fn note_read(&mut self, _refusal: Refusal<'_>) {
        count_failure(self);
    }

    fn count(&self) -> u64 {
        *self
    }
}
