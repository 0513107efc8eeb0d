//! Laws: functions that do nothing, each of which has a law over definitions as its contract.

ghost use Rattle.std.specs.Prelude.{◌≡◌, List, ℕ, Some, false};
ghost use Rattle.hack_files.specs.Files.{Contents, after_change, puts};
ghost use Rattle.hack_journal.specs.CutFiles.{IsSafeOrCut};
ghost use Rattle.hack_journal.specs.Recovery.{IsCut};
ghost use Rattle.hack_journal.specs.Rows.{Spot, is_of_journal};
ghost use Rattle.hack_journal.specs.SafeFiles.{IsSafe};
ghost use Rattle.hack_journal.specs.Strangers.{NamesNone};

/// Wherever a call is interrupted, also inside a write, its journal names no file that no call edits,
/// so the next call doesn't refuse it for one.
pub fn names_no_stranger()
    ensures { (spot : Spot) (first now : Contents) →
        IsSafeOrCut spot first now → NamesNone spot now }
{}

/// Files that are safe before a write over one that isn't the journal's, and after it, are so too where
/// it is cut: from there `recover` brings back what each path held at first.
pub fn cut_is_safe()
    ensures { (spot : Spot) (first old : Contents) (path new was now : List ℕ) →
        IsSafe spot first old → IsSafe spot first (after_change (puts path new) old) →
        is_of_journal spot.journal path ≡ false → old path ≡ Some was → IsCut new was now →
        IsSafeOrCut spot first (after_change (puts path now) old) }
{}
