//! A law: a function that does nothing, which has a law over definitions as its contract.

ghost use Rattle.std.specs.Prelude.{◌≡◌, List};
ghost use Rattle.std.specs.List.{list_any};
ghost use Rattle.std.specs.List.Sorted.{IsStrictlySortedBy};
ghost use Rattle.std.specs.Str.{bytes_eq};
ghost use Rattle.hack_base.specs.Names.{Name};
ghost use Rattle.std.specs.Cmp.Lexicographic.{slice_cmp};
ghost use Rattle.std.specs.Ordering.{nat_cmp};
ghost use Rattle.hack_private_crates.specs.Members.{in_order};

/// Paths in order rise by their bytes, and are those that were given.
pub fn paths_in_order()
    ensures rising { (ps : List Name) → IsStrictlySortedBy (slice_cmp nat_cmp) (in_order ps) }
    ensures given { (ps : List Name) (p : Name)
        → list_any (bytes_eq p) (in_order ps) ≡ list_any (bytes_eq p) ps }
{}
