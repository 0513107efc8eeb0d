//! What a call does to manifests.

ghost use Rattle.std.specs.Prelude.{◌≡◌};
ghost use Rattle.hack_words.specs.Edits.{is_change, is_edit};

/// What a call does to manifests.
#[derive(Clone, Copy, Debug, PartialEq, Eq)]
pub enum Edits {
    /// They stay unchanged.
    None,
    /// They are edited and restored.
    Temporary,
    /// They are edited permanently.
    Permanent,
    /// They stay unchanged, but for what an interrupted call left: that is restored, and nothing
    /// else is done.
    Restore,
}

impl Edits {
    /// Whether manifests are edited at all.
    pub fn is_edit(self) -> bool
        ensures { result ≡ is_edit self }
    {
        match self {
            Edits::None | Edits::Restore => false,
            Edits::Temporary | Edits::Permanent => true,
        }
    }

    /// Whether manifests are changed at all, by an edit or by restoring them.
    pub fn is_change(self) -> bool
        ensures { result ≡ is_change self }
    {
        match self {
            Edits::None => false,
            Edits::Temporary | Edits::Permanent | Edits::Restore => true,
        }
    }
}
