//! What lines on a search noted.

ghost use Rattle.std.specs.Prelude.{◌≡◌};

use hack_term::term::Term;

/// What lines on a search noted.
#[derive(Clone, Copy, Debug, PartialEq, Eq)]
pub struct Noted {
    /// Whether something that was searched for fails.
    pub fails: bool,
    /// Whether a warning was reported.
    pub warns: bool,
}

impl Noted {
    /// What a terminal on which nothing else was reported has noted.
    pub(crate) fn by(term: &Term) -> Noted
        ensures { result ≡ record { fails = term.now.error; warns = term.now.warn } }
    {
        Noted {
            fails: term.error,
            warns: term.warn,
        }
    }
}
