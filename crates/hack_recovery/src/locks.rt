//! Locks on folders: who may use a workspace's journal.

ghost use Rattle.std.specs.Prelude.{◌≡◌, [], List, ℕ, IfOk, OnErr, false, map, string_bytes};
ghost use Rattle.hack_recovery.specs.LockEvents.{LocksView, after_asking, after_release};
ghost use Rattle.hack_recovery.specs.LockEvents.{has_lock_after};
ghost use Rattle.hack_recovery.specs.MemoryLocks.{taking_of};

mod folders;

pub use self::folders::FolderLocks;
use std::alloc::{AllocError, Global};

/// Who has the lock of a folder.
#[derive(Clone, Copy, Debug, PartialEq, Eq)]
pub enum Holder {
    /// This call.
    Ours,
    /// Another call.
    Theirs,
    /// Nobody can tell: the folder can't be locked.
    Unknown,
}

/// Takes locks of folders. What this call has taken it has until it lets go, or ends.
pub trait Locks {
    /// Whether the type says what was taken, by `shown`.
    ghost tells: { Type 0 };

    /// What was asked for so far, with each answer, and whether this call has a lock. It means
    /// something only where `tells` holds.
    ghost shown: { Self → LocksView };

    /// The path of a folder without symbolic links. It means something only where `tells` holds.
    ghost real: { Self → List ℕ → List ℕ };

    /// The path of a folder without symbolic links, so that a journal is found by any path. Where
    /// that can't be told, it is the path itself.
    fn real(&self, alloc: Global, folder: &str) -> Result<String, AllocError>
        ensures { IfOk result (λ path. tells → string_bytes path ≡ real self.now folder.now) };

    /// Takes the lock of a folder, unless another call has it, and returns who has it then.
    fn take(&mut self, alloc: Global, folder: &str) -> Result<Holder, AllocError>
        ensures taken { IfOk result (λ holder. tells
            → shown self.new ≡ after_asking folder.now holder (shown self.old)) }
        ensures refused { OnErr result (tells → shown self.new ≡ shown self.old) };

    /// Lets go of what was taken.
    fn release(&mut self)
        ensures { tells → shown self.new ≡ after_release (shown self.old) };
}

/// A lock that was asked for, and the answer.
#[derive(Debug, Drop)]
pub struct Taken {
    pub folder: String,
    pub holder: Holder,
}

/// Locks in memory, for tests: each is held by the same, and what was asked for is kept.
#[derive(Debug, Drop)]
pub struct FakeLocks {
    holder: Holder,
    taken: Vec<Taken>,
    is_held: bool,
}

impl FakeLocks {
    /// Locks that are all held by this one, of which none was asked for yet.
    pub fn new(alloc: Global, holder: Holder) -> Self
        ensures holder { result.holder ≡ holder }
        ensures taken { result.taken.items ≡ [] }
        ensures is_held { result.is_held ≡ false }
    {
        FakeLocks {
            holder,
            taken: Vec::new(alloc),
            is_held: false,
        }
    }

    /// What was asked for so far, in order.
    pub fn taken(&self) -> &[Taken]
        ensures { result.now ≡ self.now.taken.items }
    {
        &self.taken
    }

    /// Whether this call has a lock.
    pub fn is_held(&self) -> bool
        ensures { result ≡ self.now.is_held }
    {
        self.is_held
    }
}

impl Locks for FakeLocks {
    ghost tells = { Unit {0} };

    ghost shown = { λ locks. record {
      takings = map taking_of locks.taken.items;
      is_held = locks.is_held;
    } };

    ghost real = { λ _ folder. folder };

    fn real(&self, alloc: Global, folder: &str) -> Result<String, AllocError> {
        String::from_str(alloc, folder)
    }

    fn take(&mut self, alloc: Global, folder: &str) -> Result<Holder, AllocError>
        ensures taken { IfOk result (λ holder. ⟦<FakeLocks as Locks>⟧.shown self.new
            ≡ after_asking folder.now holder (⟦<FakeLocks as Locks>⟧.shown self.old)) }
        ensures refused { OnErr result
            (⟦<FakeLocks as Locks>⟧.shown self.new ≡ ⟦<FakeLocks as Locks>⟧.shown self.old) }
        ensures answer { IfOk result (λ holder. holder ≡ self.old.holder) }
        ensures holder { self.new.holder ≡ self.old.holder }
    {
        let folder = String::from_str(alloc, folder)?;
        let holder = self.holder;
        self.taken.push(Taken { folder, holder })?;
        self.is_held = is_held_after(holder, self.is_held);
        Ok(holder)
    }

    fn release(&mut self)
        ensures released { ⟦<FakeLocks as Locks>⟧.shown self.new
            ≡ after_release (⟦<FakeLocks as Locks>⟧.shown self.old) }
        ensures holder { self.new.holder ≡ self.old.holder }
    {
        self.is_held = false;
    }
}

/// Whether this call has a lock after this answer.
fn is_held_after(holder: Holder, before: bool) -> bool
    ensures { result ≡ has_lock_after holder before }
{
    match holder {
        Holder::Ours => true,
        Holder::Theirs | Holder::Unknown => before,
    }
}
