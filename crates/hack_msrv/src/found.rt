//! What a search says of a package.

ghost use Rattle.std.specs.Prelude.{◌↔◌, ◌≡◌, IsTrue};

/// What a search says of a package. Versions are indices into the plan's list of them, and places
/// are those of the plan.
#[derive(Clone, Copy, Debug, PartialEq, Eq)]
pub enum Found {
    /// The package has no run.
    Untried,
    /// The least version on which all its runs passed. On the one that it uses before that, the run
    /// at the place failed; none where it uses none before.
    Least {
        version: usize,
        failed: Option<usize>,
    },
    /// On the greatest version, the run at the place failed.
    Nowhere {
        version: usize,
        failed: usize,
    },
    /// A preparation failed, memory was refused, or a program couldn't be started. The search ended
    /// with that.
    Broken,
}

impl Found {
    /// Whether the search ended before it was done.
    pub fn is_broken(&self) -> bool
        ensures { IsTrue result ↔ (self.now ≡ Found.Broken) }
    {
        match self {
            Found::Broken => true,
            Found::Untried | Found::Least { .. } | Found::Nowhere { .. } => false,
        }
    }
}
