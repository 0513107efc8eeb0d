//! Laws: functions that do nothing, each of which has a law over definitions as its contract.

ghost use Rattle.std.specs.Prelude.{◌≡◌, ◌++◌, List, ℕ};
ghost use Rattle.hack_manifest.specs.Manifest.{Facts, IsReadAs};
ghost use Rattle.hack_base.specs.FieldReadings.{FieldReading};
ghost use Rattle.hack_manifest.specs.Paths.{AreCut, View, joined_pieces};

/// A manifest's text is read in only one way.
pub fn manifest_is_one()
    ensures { (text : List ℕ) (minor : ℕ) (read other : FieldReading Facts)
        → IsReadAs text minor read
        → IsReadAs text minor other → read ≡ other }
{}

/// The pieces and the tail joined are the text.
pub fn pieces_join()
    ensures { (text tail : List ℕ) (pieces : List View) → AreCut text pieces tail
        → text ≡ joined_pieces pieces ++ tail }
{}

/// A text is cut in only one way.
pub fn cut_is_one()
    ensures { (text tail end : List ℕ) (pieces others : List View) → AreCut text pieces tail
        → AreCut text others end → (pieces ≡ others) × (tail ≡ end) }
{}
