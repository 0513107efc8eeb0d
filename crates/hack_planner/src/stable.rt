//! What is known of the version of the toolchain `stable` when a plan is made.

ghost use Rattle.std.specs.Prelude.{◌≡◌};
ghost use Rattle.hack_planner.specs.CallPlan.{latest_of};

use crate::fault::PlanFault;
use hack_versions::version::Version;

/// What is known of the version of the toolchain `stable`, which rustup tells.
#[derive(Debug, PartialEq, Eq, Drop)]
pub enum Stable {
    /// It wasn't asked for, since nothing needs it: no end of a range of versions is this one.
    Unasked,
    /// The version.
    Known(Version),
    /// Why it is not known: the text of the error of asking for it.
    Unknown(String),
}

impl Stable {
    /// The version to plan with: none where it wasn't asked for.
    pub(crate) fn latest(self) -> Result<Option<Version>, PlanFault>
        ensures { result ≡ latest_of self }
    {
        match self {
            Stable::Unasked => Ok(None),
            Stable::Known(version) => Ok(Some(version)),
            Stable::Unknown(text) => Err(PlanFault::Stable(text)),
        }
    }
}
