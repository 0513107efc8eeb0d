//! Who keeps other calls away from a workspace, and who restores its manifests where this call ends
//! before it does so.

ghost use Rattle.std.specs.Prelude.{◌≡◌};

use crate::guards::Guards;
use crate::locks::Locks;

/// Locks and guards.
#[derive(Drop)]
pub struct Keepers<K: Locks, G: Guards> {
    pub locks: K,
    pub guards: G,
}

impl<K: Locks, G: Guards> Keepers<K, G> {
    /// Keepers of both kinds.
    pub fn new(locks: K, guards: G) -> Self
        ensures locks { result.locks ≡ locks }
        ensures guards { result.guards ≡ guards }
    {
        Keepers { locks, guards }
    }
}
