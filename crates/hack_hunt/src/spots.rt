//! Which packages are searched, for which slots.

ghost use Rattle.std.specs.Prelude.{◌≡◌, ◌++◌, IfOk, OnOk, map};
ghost use Rattle.hack_metadata.specs.RecordViews.{place_at};
ghost use Rattle.hack_hunt.specs.Hunts.{placed, spots_of};
ghost use Rattle.hack_hunt.specs.SpotView.{spot_view};

use hack_metadata::metadata::PackageId;
use std::alloc::{AllocError, Global};

/// A package and a slot.
#[derive(Clone, Copy)]
pub struct Spot {
    pub id: PackageId,
    /// As an index into the targets.
    pub slot: usize,
    /// The package, as an index into the plan's.
    pub member: usize,
}

/// Each of these packages in each slot, slot after slot.
pub(crate) fn spots(alloc: Global, ids: &[PackageId], slots: usize) -> Result<Vec<Spot>, AllocError>
    ensures { IfOk result (λ spots. map spot_view spots.items
        ≡ spots_of (map place_at ids.now) slots) }
{
    let mut spots = Vec::new(alloc);
    for slot in 0..slots {
        add_spots(ids, slot, &mut spots)?;
    }
    Ok(spots)
}

/// Adds each of these packages in a slot.
fn add_spots(ids: &[PackageId], slot: usize, spots: &mut Vec<Spot>) -> Result<(), AllocError>
    ensures { OnOk result (map spot_view spots.new.items
        ≡ map spot_view spots.old.items ++ placed slot 0 (map place_at ids.now)) }
{
    for member in 0..ids.len() {
        spots.push(Spot {
            id: ids[member],
            slot,
            member,
        })?;
    }
    Ok(())
}
