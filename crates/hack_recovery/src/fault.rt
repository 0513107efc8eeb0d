//! Why a call isn't performed.

ghost use Rattle.std.specs.Prelude.{◌≡◌};
ghost use Rattle.hack_recovery.specs.Texts.{text_of_fault};

use std::alloc::AllocError;

/// Why a call isn't performed.
#[derive(Clone, Copy, Debug, PartialEq, Eq)]
pub enum CallFault {
    Memory,
    /// Another call edits the manifests of this workspace.
    Busy,
    /// An interrupted call left a journal, and the folder of the workspace can't be locked.
    Unlocked,
}

impl CallFault {
    /// The error message.
    pub fn text(self) -> &'static str
        ensures { result.now ≡ text_of_fault self }
    {
        match self {
            CallFault::Memory => "out of memory",
            CallFault::Busy => "another call is editing the manifests of this workspace",
            CallFault::Unlocked => {
                "there is a journal of edited manifests, and the folder of the workspace can't be locked"
            }
        }
    }
}

impl From<AllocError> for CallFault {
    ghost use Rattle.std.specs.Prelude.{◌≡◌};
    ghost use Rattle.hack_recovery.specs.declared.fault.CallFault.TheVariants.{Memory};

    ghost from_gives = { λ _ e. e ≡ Memory };

    fn from(_: AllocError) -> CallFault {
        CallFault::Memory
    }
}
