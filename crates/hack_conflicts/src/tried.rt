//! A build that was tried, and how it ended.

/// How a build ended.
#[derive(Clone, Copy, Debug, PartialEq, Eq)]
pub enum BuildOutcome {
    Passed,
    Failed,
    /// A fault came in between, so that it isn't known whether the build passes.
    Broken,
}

/// A build that was tried.
#[derive(Drop)]
pub struct Tried {
    /// For each position whether the set has it.
    pub set: Vec<bool>,
    pub outcome: BuildOutcome,
}
