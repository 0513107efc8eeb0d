//! Guards: who restores edited manifests at once where a call ends before it does so itself.

ghost use Rattle.std.specs.Prelude.{◌≡◌, [], IfOk, None, OnErr, false, map};
ghost use Rattle.hack_recovery.specs.GuardEvents.{GuardsView, after_leave, after_start};
ghost use Rattle.hack_recovery.specs.MemoryGuards.{start_of};

mod shell;

pub use self::shell::ShellGuards;
use std::alloc::{AllocError, Global};

/// Starts guards. One that watches restores the manifests of a folder as soon as this process ends
/// without leaving it, whatever ended it.
pub trait Guards {
    /// Whether the type says which guards were started, by `shown`.
    ghost tells: { Type 0 };

    /// Which guards were started so far, and whether one watches. It means something only where
    /// `tells` holds.
    ghost shown: { Self → GuardsView };

    /// Starts a guard for the workspace in a folder, and returns whether it watches now: it can't
    /// where there is no shell.
    fn start(&mut self, alloc: Global, folder: &str) -> Result<bool, AllocError>
        ensures started { IfOk result (λ watches. tells
            → shown self.new ≡ after_start folder.now watches (shown self.old)) }
        ensures refused { OnErr result (tells → shown self.new ≡ shown self.old) };

    /// Tells the guard, if one watches, that the call got to its end, with this exit status, and
    /// waits for the guard's end.
    fn leave(&mut self, status: u8)
        ensures { tells → shown self.new ≡ after_leave status (shown self.old) };
}

/// A guard that was asked for, and whether it came.
#[derive(Debug, Drop)]
pub struct GuardStart {
    pub folder: String,
    pub watches: bool,
}

/// Guards in memory, for tests: either each comes or none, and what was asked for is kept.
#[derive(Debug, Drop)]
pub struct FakeGuards {
    comes: bool,
    starts: Vec<GuardStart>,
    is_watching: bool,
    status: Option<u8>,
}

impl FakeGuards {
    /// Guards that all come, or of which none does; none was asked for yet.
    pub fn new(alloc: Global, comes: bool) -> Self
        ensures comes { result.comes ≡ comes }
        ensures starts { result.starts.items ≡ [] }
        ensures is_watching { result.is_watching ≡ false }
        ensures status { result.status ≡ None }
    {
        FakeGuards {
            comes,
            starts: Vec::new(alloc),
            is_watching: false,
            status: None,
        }
    }

    /// What was asked for so far, in order.
    pub fn starts(&self) -> &[GuardStart]
        ensures { result.now ≡ self.now.starts.items }
    {
        &self.starts
    }

    /// Whether a guard watches.
    pub fn is_watching(&self) -> bool
        ensures { result ≡ self.now.is_watching }
    {
        self.is_watching
    }

    /// The exit status that the last guard was left with, if it was.
    pub fn status(&self) -> Option<u8>
        ensures { result ≡ self.now.status }
    {
        self.status
    }
}

impl Guards for FakeGuards {
    ghost tells = { Unit {0} };

    ghost shown = { λ guards. record {
      starts = map start_of guards.starts.items;
      is_watching = guards.is_watching;
      status = guards.status;
    } };

    fn start(&mut self, alloc: Global, folder: &str) -> Result<bool, AllocError>
        ensures started { IfOk result (λ watches. ⟦<FakeGuards as Guards>⟧.shown self.new
            ≡ after_start folder.now watches (⟦<FakeGuards as Guards>⟧.shown self.old)) }
        ensures refused { OnErr result
            (⟦<FakeGuards as Guards>⟧.shown self.new ≡ ⟦<FakeGuards as Guards>⟧.shown self.old) }
        ensures answer { IfOk result (λ watches. watches ≡ self.old.comes) }
        ensures comes { self.new.comes ≡ self.old.comes }
    {
        let folder = String::from_str(alloc, folder)?;
        let watches = self.comes;
        self.starts.push(GuardStart { folder, watches })?;
        self.is_watching = watches;
        self.status = None;
        Ok(watches)
    }

    fn leave(&mut self, status: u8)
        ensures left { ⟦<FakeGuards as Guards>⟧.shown self.new
            ≡ after_leave status (⟦<FakeGuards as Guards>⟧.shown self.old) }
        ensures comes { self.new.comes ≡ self.old.comes }
    {
        if self.is_watching {
            self.is_watching = false;
            self.status = Some(status);
        }
    }
}
