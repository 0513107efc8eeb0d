//! What is built.

/// What is built for a set of positions.
#[derive(Drop)]
pub enum Build {
    /// No features.
    NoFeatures,
    /// All features, as by `--all-features`.
    AllFeatures,
    /// The candidates of a listed set, in increasing order.
    Set(Vec<usize>),
}
