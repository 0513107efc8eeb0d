//! Laws: functions that do nothing, each of which has a law over definitions as its contract.

ghost use Rattle.std.specs.Prelude.{◌≡◌, List, ℕ};
ghost use Rattle.hack_words.specs.CommandLine.{Around, CommandLineOutcome, ComesTo};

/// A command line has one outcome.
pub fn outcome_is_one()
    ensures { (around : Around) (words : List (List ℕ)) (a b : CommandLineOutcome)
        → ComesTo around words a
        → ComesTo around words b → a ≡ b }
{}
