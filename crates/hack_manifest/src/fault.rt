//! Why a part of a manifest can't be read, without the manifest's path.

ghost use Rattle.std.specs.Prelude.{◌≡◌};
ghost use Rattle.hack_manifest.specs.declared.fault.ReadFault.TheVariants.{Memory};

use std::alloc::AllocError;

/// Why a part of a manifest can't be read.
#[derive(Drop)]
pub enum ReadFault {
    Memory,
    /// The name of a field that is missing or has the wrong type.
    Field(&'static str),
}

impl From<AllocError> for ReadFault {
    ghost from_gives = { λ _ e. e ≡ Memory };

    fn from(_e: AllocError) -> ReadFault {
        ReadFault::Memory
    }
}
