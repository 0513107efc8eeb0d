//! Who handles a workspace; this decides which arguments are passed on to cargo.

ghost use Rattle.std.specs.Prelude.{◌≡◌, if◌then◌else◌};

/// Who chooses the packages of a workspace that a command runs on.
#[derive(Clone, Copy, Debug, PartialEq, Eq)]
pub enum WorkspaceBehavior {
    /// Cargo does.
    Cargo,
    /// This program does, and runs one command for each package.
    Default,
}

impl WorkspaceBehavior {
    /// The behaviour that was asked for: Cargo's own, or the default.
    pub fn new(cargo: bool) -> WorkspaceBehavior
        ensures { result ≡ (if cargo then WorkspaceBehavior.Cargo else WorkspaceBehavior.Default) }
    {
        if cargo {
            WorkspaceBehavior::Cargo
        } else {
            WorkspaceBehavior::Default
        }
    }
}
