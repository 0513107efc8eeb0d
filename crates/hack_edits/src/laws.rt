//! A law: a function that does nothing, which has a law over definitions as its contract.

ghost use Rattle.std.specs.Prelude.{List, ℕ};
ghost use Rattle.hack_edits.specs.DevDeps.{IsWithoutDev, HasNoDev};

/// The result of a removal has nothing to take out, so a second one changes nothing.
pub fn nothing_left()
    ensures { (text new : List ℕ) → IsWithoutDev text new → HasNoDev new }
{}
