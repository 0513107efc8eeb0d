//! What a search is about.

use hack_closures::Closures;

/// The package and the slot whose sets a search builds.
#[derive(Clone, Copy)]
pub struct Aim<'a> {
    /// The sets of the package that may be chosen, and what is built for them.
    pub closures: &'a Closures<'a>,
    /// The slot, as an index into the targets.
    pub slot: usize,
    /// The package, as an index into the plan's packages.
    pub member: usize,
    /// Whether the run without features is a plain one, since the package has none.
    pub plain: bool,
}
