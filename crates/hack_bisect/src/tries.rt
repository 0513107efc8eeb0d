//! Who tries places.

ghost use Rattle.std.specs.Prelude.{◌++◌, ◌∷◌, [], List};
ghost use Rattle.hack_bisect.specs.Searches.{Trial};

/// How a trial ended.
#[derive(Clone, Copy, Debug, PartialEq, Eq)]
pub enum TrialOutcome {
    Passed,
    Failed,
    /// A fault came in between, so that it isn't known whether the place passes.
    Broken,
}

/// Tries places.
pub trait Tries {
    /// A relation of the tester before and after these trials, in this order.
    ghost tried: { List Trial → Self → Self → Type 0 };

    /// Tries the place. A tester that can't say whether it passes, for example since a program can't
    /// be started, keeps the fault to itself and answers `Broken`; the search then ends, and asks it
    /// no more.
    fn try_at(&mut self, place: usize) -> TrialOutcome
        ensures { tried (record { place = place; outcome = result } ∷ []) self.old self.new };

    /// Without a trial the relation holds of each tester and itself.
    ghost tried_none: { (a : Self) → tried [] a a };

    /// The relations of some trials and of more trials after them give that of all.
    ghost tried_more: { (trials more : List Trial) (a b c : Self) → tried trials a b
        → tried more b c → tried (trials ++ more) a c };
}
