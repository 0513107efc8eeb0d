//! How many questions rules were asked, as a value that nobody else can make.

ghost use Rattle.std.specs.Prelude.{◌≡◌};
ghost use Rattle.hack_features.specs.View.{asked_in};

/// How many questions some rules were asked. Only rules give one, so a caller can't claim a number
/// that was never asked.
#[derive(Clone, Copy, Debug, PartialEq, Eq)]
pub struct Tally {
    count: u128,
}

impl Tally {
    /// The tally of so many questions.
    pub(crate) fn of(count: u128) -> Tally
        ensures { asked_in result ≡ count }
    {
        Tally { count }
    }

    /// The number of questions. At 2^128 - 1 it stays.
    pub fn count(&self) -> u128
        ensures { result ≡ asked_in self.now }
    {
        self.count
    }
}
